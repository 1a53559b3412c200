//! The issue of commands that the caller has read, for the device that it names.

ghost use Rattle.std.specs.Prelude.{◌≡◌, ◌<◌, false, true, OnErr, OnOk};
ghost use Rattle.std.specs.Result.{result_err};
ghost use Rattle.slots.specs.Commands.{slots_where};
ghost use Rattle.slots.specs.Slots.{is_queued_issue};
ghost use Rattle.hba_fbs.specs.Bits.{without};
ghost use Rattle.hba_fbs.specs.Issuing.{any_slot, commands_with, is_busy, view_with};
ghost use Rattle.hba_fbs.specs.Offering.{asked_by};
ghost use Rattle.hba_fbs.specs.Placing.{Places, issue_error as issue_error_of};
ghost use Rattle.hba_fbs.specs.Views.{LeavesOtherViews, view_of};

use crate::bits::cleared;
use crate::error::IssueError;
use crate::issue::{any_bad, any_busy, issue_all};
use crate::offers::Offers;
use crate::port::PortCore;

impl PortCore {
    // Why none of these slots is issued.
    fn issue_error<O: Offers>(&self, slots: u32, offers: &O) -> Option<IssueError>
        requires { O.can_offer offers.now }
        ensures { result ≡ issue_error_of self.now (O.offer offers.now) slots }
    {
        if !self.registers.started {
            return Some(IssueError::Stopped);
        }
        if any_busy(&self.slots, slots) {
            return Some(IssueError::SlotBusy);
        }
        if any_bad(offers, slots) {
            return Some(IssueError::NoCommand);
        }
        None
    }

    // Issues the commands in these slots for a device.
    fn place<O: Offers>(&mut self, dev: u8, slots: u32, offers: &O)
        requires dev { dev < 16 }
        requires can { O.can_offer offers.now }
        requires free { any_slot slots (is_busy self.old.slots) ≡ false }
        ensures own { view_of dev self.new
            ≡ view_with dev (asked_by (O.offer offers.now) slots) (view_of dev self.old) }
        ensures others { LeavesOtherViews dev self.old self.new }
        ensures registers { self.new.registers ≡ self.old.registers }
        ensures errors { self.new.errors ≡ self.old.errors }
        ensures commands { self.new.commands
            ≡ commands_with (asked_by (O.offer offers.now) slots) self.old.commands }
        ensures number { self.new.number ≡ self.old.number }
        ensures active { self.new.active ≡ self.old.active }
    {
        issue_all(&mut self.slots, &mut self.commands, offers, dev, slots);
    }

    // The bits of PxSACT that were written for slots in which a queued command is issued are theirs from now on.
    fn hand_armed(&mut self)
        ensures { self.new ≡ record self.old {
          registers = record self.old.registers {
            armed = without self.old.registers.armed (slots_where is_queued_issue self.old.slots);
          };
        } }
    {
        self.registers.armed = cleared(self.registers.armed, self.slots.queued());
    }

    /// Issues the commands that are offered for these slots, as a mask, for a device, or none of them. The caller says for
    /// which device: the one in PxFBS.DEV when PxCI was written, or, with command-based switching, the one that the header
    /// names. A command of another device keeps none of them back here; [`due_slots`](PortCore::due_slots) has it wait. A
    /// command that is not queued may have its bit of PxSACT set, which stays.
    pub fn issue_to<O: Offers>(&mut self, dev: u8, slots: u32, offers: &O) -> Result<(), IssueError>
        requires dev { dev < 16 }
        requires can { O.can_offer offers.now }
        ensures refusal { result_err result ≡ issue_error_of self.old (O.offer offers.now) slots }
        ensures refused { OnErr result (self.new ≡ self.old) }
        ensures issued { OnOk result (Places self.old (O.offer offers.now) dev slots self.new) }
    {
        if let Some(error) = self.issue_error(slots, offers) {
            return Err(error);
        }
        self.place(dev, slots, offers);
        self.hand_armed();
        Ok(())
    }
}
