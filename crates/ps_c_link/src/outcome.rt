//! What becomes of a call: what was put in the caller's room, or why nothing was. An error says by
//! its type what can happen: a step with files, a room and the inputs of a call have one each.
ghost use Rattle.std.specs.Prelude.{◌≡◌};

use ps_linkfile::{Refusal, Summary, Unmade};
use std::alloc::{AllocError, AllocFailed};

/// What a link of the files of a report comes to.
#[derive(Clone, Copy)]
pub enum Verdict {
    /// The files are linked, and their linked file has this summary.
    Links(Summary),
    /// The files are refused for this.
    Refused(Refusal),
}

/// What was put in the caller's room.
#[derive(Clone, Copy)]
pub enum Done {
    /// A linked file of so many bytes, which has this summary.
    Linked {
        summary: Summary,
        size: usize,
    },
    /// A text of so many bytes.
    Text(usize),
    /// So many bytes that are made of a report, on files with this verdict and so many warnings.
    Report {
        verdict: Verdict,
        warnings: usize,
        size: usize,
    },
}

/// A room that is shorter than what is to be put in it.
#[derive(Clone, Copy)]
pub struct TooSmall {
    /// How many bytes that has.
    pub size: usize,
}

/// Why nothing is put in a room: it was not made, or the room is too small.
#[derive(Clone, Copy)]
pub enum Unput {
    Unmade(Unmade),
    TooSmall(TooSmall),
}

/// Why a call with libraries that are one after another leaves the caller's room as it was.
#[derive(Clone, Copy)]
pub enum CallError {
    /// The lengths do not add up to what is given.
    WrongLengths,
    Unput(Unput),
}

/// What is wrong with the inputs of a call whose files have names.
#[derive(Clone, Copy)]
pub enum WrongInputs {
    /// The lengths do not add up to what is given, or there is not one name for each file.
    Lengths,
    /// A name is no UTF-8.
    Names,
}

/// Why a call whose files have names leaves the caller's room as it was.
#[derive(Clone, Copy)]
pub enum NotDone {
    Wrong(WrongInputs),
    Unput(Unput),
}

impl From<AllocError> for CallError {
    ghost use Rattle.ps_linkfile.specs.declared.unmade.Unmade.TheVariants.{Memory};
    ghost use Rattle.ps_c_link.specs.declared.outcome.Unput.TheVariants as unput;
    ghost use Rattle.ps_c_link.specs.declared.outcome.CallError.TheVariants as call;

    ghost from_gives = { λ _ e. e ≡ call.Unput (unput.Unmade Memory) };

    fn from(_error: AllocError) -> CallError {
        CallError::Unput(Unput::Unmade(Unmade::Memory))
    }
}

impl From<Unput> for CallError {
    ghost use Rattle.ps_c_link.specs.declared.outcome.CallError.TheVariants as call;

    ghost from_gives = { λ why e. e ≡ call.Unput why };

    fn from(why: Unput) -> CallError {
        CallError::Unput(why)
    }
}

impl From<AllocError> for NotDone {
    ghost use Rattle.ps_linkfile.specs.declared.unmade.Unmade.TheVariants.{Memory};
    ghost use Rattle.ps_c_link.specs.declared.outcome.Unput.TheVariants as unput;
    ghost use Rattle.ps_c_link.specs.declared.outcome.NotDone.TheVariants as not_done;

    ghost from_gives = { λ _ e. e ≡ not_done.Unput (unput.Unmade Memory) };

    fn from(_error: AllocError) -> NotDone {
        NotDone::Unput(Unput::Unmade(Unmade::Memory))
    }
}

impl<T: Drop> From<AllocFailed<T>> for NotDone {
    ghost use Rattle.ps_linkfile.specs.declared.unmade.Unmade.TheVariants.{Memory};
    ghost use Rattle.ps_c_link.specs.declared.outcome.Unput.TheVariants as unput;
    ghost use Rattle.ps_c_link.specs.declared.outcome.NotDone.TheVariants as not_done;

    ghost from_gives = { λ _ e. e ≡ not_done.Unput (unput.Unmade Memory) };

    fn from(_error: AllocFailed<T>) -> NotDone {
        NotDone::Unput(Unput::Unmade(Unmade::Memory))
    }
}

impl From<Unput> for NotDone {
    ghost use Rattle.ps_c_link.specs.declared.outcome.NotDone.TheVariants as not_done;

    ghost from_gives = { λ why e. e ≡ not_done.Unput why };

    fn from(why: Unput) -> NotDone {
        NotDone::Unput(why)
    }
}

impl From<CallError> for NotDone {
    ghost use Rattle.ps_c_link.specs.Outcomes.{not_done_of};

    ghost from_gives = { λ error e. e ≡ not_done_of error };

    fn from(error: CallError) -> NotDone {
        match error {
            CallError::WrongLengths => NotDone::Wrong(WrongInputs::Lengths),
            CallError::Unput(why) => NotDone::Unput(why),
        }
    }
}
