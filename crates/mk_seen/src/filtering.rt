//! The first of the messages that have one identifier, filtered.

ghost use Rattle.std.specs.Prelude.{◌≡◌, ◌++◌, true, OnErr, OnOk};
ghost use Rattle.mk_field.specs.FilterViews.{filter_of};
ghost use Rattle.mk_messages.specs.Working.{answer_said};
ghost use Rattle.mk_transfer.specs.Said.{silence};
ghost use Rattle.mk_seen.specs.Firsts.{MayBeSeen, said_once};
ghost use Rattle.mk_seen.specs.SeenIds.{new_line, seen_after};

use crate::ids::IdFile;
use mk_field::{FieldFilter, filter_one};
use mk_messages::{Answer, MessageWork};
use mk_transfer::Stop;
use std::alloc::{AllocError, Global};
use std::marker::Model;

/// Filters the fields of each message of a mailbox that isn't repeated, and leaves the others out. Where
/// memory runs out over a message, it may have been seen.
#[derive(Drop)]
pub struct FirstMessages<'a> {
    filter: &'a FieldFilter<'a>,
}

impl<'a> Model for FirstMessages<'a> {
    ghost use Rattle.std.specs.Prelude.{◌≡◌, true, []};
    ghost use mir.Syntax.{named};
    ghost use Rattle.mk_field.specs.declared.filters.FieldFilter as declared;
    ghost use Rattle.mk_field.specs.contracts.filters.FieldFilter.{the_row};
    ghost use Rattle.mk_field.specs.FilterViews.{filter_of, is_allowed};

    ghost Value = { declared.FieldFilter };

    ghost coded = { (the_row (record { mir = named 0; lft = [] })).coded };

    ghost view = { λ w. w.filter.now };

    ghost invariant = { λ w. is_allowed (filter_of w.filter.now) ≡ true };
}

impl<'a> FirstMessages<'a> {
    ghost use Rattle.std.specs.Prelude.{◌≡◌, false, IfNone, IfSome};
    ghost use Rattle.mk_field.specs.FilterViews.{filter_of, is_allowed};

    /// By a filter, where it may be asked for.
    pub fn by(filter: &'a FieldFilter<'a>) -> Option<FirstMessages<'a>>
        ensures some { IfSome result (λ w. w ≡ filter.now) }
        ensures none { IfNone result (is_allowed (filter_of filter.now) ≡ false) }
    {
        if filter.ok() {
            Some(FirstMessages { filter })
        } else {
            None
        }
    }
}

impl MessageWork<IdFile> for FirstMessages<'_> {
    ghost does = { λ w number message said old new.
        (said ≡ said_once (filter_of w) old.seen number message)
        × (new.seen ≡ seen_after old.seen message) × (new.lines.items ≡ old.lines.items ++ new_line old.seen message) };

    ghost stops = { λ _ _ message said old new. (said ≡ silence) × MayBeSeen message old new };

    ghost failures = { λ _ _. 0 };

    fn work(
        &self,
        alloc: Global,
        number: u64,
        message: Vec<u8>,
        device: &mut IdFile,
        answer: &mut Answer,
    ) -> Result<(), Stop> {
        match say_once(alloc, self, number, message, device, answer) {
            Ok(()) => Ok(()),
            Err(AllocError) => {
                answer.clear();
                Err(Stop::Memory)
            }
        }
    }
}

// What the filter says of a message, unless it is repeated.
fn say_once(
    alloc: Global,
    work: &FirstMessages<'_>,
    number: u64,
    message: Vec<u8>,
    device: &mut IdFile,
    answer: &mut Answer,
) -> Result<(), AllocError>
    requires { answer_said answer.old ≡ silence }
    ensures said { OnOk result (answer_said answer.new ≡ said_once (filter_of work.now) device.old.seen number message.items) }
    ensures seen { OnOk result (device.new.seen ≡ seen_after device.old.seen message.items) }
    ensures lines { OnOk result (device.new.lines.items ≡ device.old.lines.items ++ new_line device.old.seen message.items) }
    ensures stopped { OnErr result (MayBeSeen message.items device.old device.new) }
{
    if !device.see_message(alloc, &message)? {
        return Ok(());
    }
    let (out, err) = (&mut answer.output, &mut answer.errors);
    match filter_one(alloc, work.filter, true, number, message, out, err) {
        Ok(_) => Ok(()),
        Err(_) => Err(AllocError),
    }
}
