//! The caller's room, as a writer.
ghost use Rattle.std.specs.Prelude.{◌≡◌, ◌≤◌, ◌<◌, length};
ghost use Rattle.ps_linkfile.specs.Writing.{file_in};

use ps_linkfile::Linked;
use ps_writing::ToldWriter;
use std::alloc::Allocator;
use std::io::{self, Write};

/// A writer that fills a room from its first byte on. Each write takes all that there is room for,
/// and none returns an error: a write takes none of its bytes only where the room is full.
#[derive(Drop)]
struct Room<'r> {
    bytes: &'r mut [u8],
    /// How many bytes were written.
    taken: usize,
    /// How many writes there were, and how many of them took fewer bytes than they were handed, and
    /// how many none of at least one byte.
    writes: u64,
    shorts: u64,
    stalls: u64,
    ghost inside: { taken ≤ length bytes.now },
    ghost full: { 0 < stalls → taken ≡ length bytes.now },
}

impl Room<'_> {
    ghost use Rattle.std.specs.Prelude.{◌≡◌, ◌+◌, ◌-◌, ◌++◌, length, min, take};

    /// Takes as many of the bytes as there is room for, and returns how many.
    fn take(&mut self, bytes: &[u8]) -> usize
        ensures count { result ≡ min (length bytes.now) (length self.old.bytes.now - self.old.taken) }
        ensures taken { self.new.taken ≡ self.old.taken + result }
        ensures bytes { take self.new.taken self.new.bytes.now
            ≡ take self.old.taken self.old.bytes.now ++ take result bytes.now }
        ensures same_reference { self.new.bytes.ghost_name ≡ self.old.bytes.ghost_name }
        ensures len { length self.new.bytes.now ≡ length self.old.bytes.now }
        ensures writes { self.new.writes ≡ self.old.writes }
        ensures shorts { self.new.shorts ≡ self.old.shorts }
        ensures stalls { self.new.stalls ≡ self.old.stalls }
    {
        let count = bytes.len().min(self.bytes.len() - self.taken);
        let end = self.taken + count;
        self.bytes[self.taken..end].copy_from_slice(&bytes[..count]);
        self.taken = end;
        count
    }
}

impl Write for Room<'_> {
    ghost use Rattle.std.specs.Prelude.{Some, ◌∷◌, length, take};

    // What is reported is the room that is written to, by its name and its length, and then the
    // bytes.
    ghost contents = { λ room. Some (room.bytes.ghost_name ∷ length room.bytes.now
        ∷ take room.taken room.bytes.now) };

    fn write(&mut self, bytes: &[u8]) -> io::Result<usize> {
        Ok(self.take(bytes))
    }

    fn flush(&mut self) -> io::Result<()> {
        Ok(())
    }
}

impl ToldWriter for Room<'_> {
    ghost counts = { λ room. record { writes = room.writes; errors = 0; stalls = room.stalls; shorts = room.shorts } };

    fn writes(&self) -> u64 {
        self.writes
    }

    fn errors(&self) -> u64 {
        0
    }

    fn stalls(&self) -> u64 {
        self.stalls
    }

    fn shorts(&self) -> u64 {
        self.shorts
    }

    fn told_write(&mut self, bytes: &[u8]) -> io::Result<usize> {
        let count = self.take(bytes);
        self.writes += 1;
        if count < bytes.len() {
            self.shorts += 1;
            if count == 0 {
                self.stalls += 1;
            }
        }
        Ok(count)
    }
}

/// Fills the room with the linked file, which is as long.
pub(crate) fn fill<A: Allocator + Copy>(linked: &Linked<'_, A>, room: &mut [u8])
    requires { length room.old ≡ length (file_in linked.now) }
    ensures { room.new ≡ file_in linked.now }
{
    let mut writer = Room {
        bytes: room,
        taken: 0,
        writes: 0,
        shorts: 0,
        stalls: 0,
    };
    // A write fails only where the room is full, and then the file is whole.
    let _ = linked.write_told(&mut writer);
}
