//! The caller's room.
ghost use Rattle.std.specs.Prelude.{◌≡◌, length, IfErr, IfOk, OnErr, OnOk};
ghost use Rattle.ps_c_link.specs.Rooms.{RoomBeginsWith};
ghost use Rattle.ps_c_link.specs.WhyUnmade.{IsAbove};

use ps_c_link::TooSmall;

/// Puts the text in the room, and returns how many bytes it has.
pub(crate) fn put(text: &[u8], room: &mut [u8]) -> Result<usize, TooSmall>
    ensures text { OnOk result (RoomBeginsWith text.now room.old room.new) }
    ensures size { IfOk result (λ size. size ≡ length text.now) }
    ensures small { IfErr result (IsAbove text.now room.old) }
    ensures untouched { OnErr result (room.new ≡ room.old) }
{
    let size = text.len();
    if room.len() < size {
        return Err(TooSmall { size });
    }
    room[..size].copy_from_slice(text);
    Ok(size)
}
