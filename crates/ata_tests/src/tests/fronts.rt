//! What a disk owes its host, command by command, and the FISes of a command that moves sectors.

use ata_command::{
    Asked, LogPage, Move, Multiple, Refusal, Setting, Settings, Standing, TransferMode,
};
use ata_front::{Act, Fault, Front, Heard, Owed, Page, Purpose, Task, Trouble, command_reply};
use ata_reply::{Announcement, AtaError, Failure, Reply, SetUp};
use block_command::{BlockCommand, Command, Protocol};
use std::alloc::Global;
use std::process::Abort;
use std::test::Fail;

const TROUBLE: Trouble = Trouble {
    error: AtaError::Uncorrectable,
    lba: 77,
};

const ABORTED: Reply = Reply::Failed(Failure {
    error: AtaError::Aborted,
    lba: 0,
    wide: true,
});

const PAGE: Reply = Reply::Announce(Announcement {
    to_host: true,
    first: true,
    last: true,
    bytes: 512,
});

/// A queued write of a sector.
const WRITE: Command = Command {
    place: 5,
    lba: 77,
    count: 1,
    write: true,
    lasting: false,
    protocol: Protocol::Queued,
    block: 8192,
    auto_activate: true,
};

/// The front once it has sent what it owes, if that is this.
fn sent(rt: &impl Abort, front: Front, owed: Owed) -> Front {
    assert_eq!(rt; front.owed(), Some(owed));
    front.said()
}

/// The front of a disk whose signature was sent.
fn ready(rt: &impl Abort) -> Front {
    let heard = Front::new(true).plugged();
    assert_eq!(rt; heard.act, Act::Resets);
    let front = sent(rt, heard.front, Owed::Reply(Reply::Signature));
    assert_eq!(rt; front.standing(0), Standing::Queued(0));
    assert_eq!(rt; front.settings(), Settings::power_on());
    front
}

/// The front after a command that nothing becomes of, beside no other.
fn asked(rt: &impl Abort, front: Front, asked: Asked) -> Front {
    let heard = front.command(asked, 0);
    assert_eq!(rt; heard.act, Act::Nothing);
    heard.front
}

#[test]
fn a_page_is_given(rt: HostRuntime) {
    let front = asked(&rt, ready(&rt), Asked::Identifies);
    assert_eq!(rt; front.standing(0), Standing::Single);
    let front = sent(&rt, front, Owed::Reply(PAGE));
    let front = sent(&rt, front, Owed::Page(Page::Identity));
    assert_eq!(rt; front.owed(), None);
    assert_eq!(rt; front.standing(6), Standing::Queued(6));
}

#[test]
fn srst_drops_all(rt: HostRuntime) {
    let heard = ready(&rt).control(true);
    assert_eq!(rt; heard.act, Act::Resets);
    assert_eq!(rt; heard.front.standing(0), Standing::Reset);
    let front = asked(&rt, heard.front, Asked::Identifies);
    assert_eq!(rt; front.owed(), None);
    let front = sent(
        &rt,
        front.control(false).front,
        Owed::Reply(Reply::Signature),
    );
    assert_eq!(rt; front.control(false).front, front);
}

#[test]
fn an_error_is_read(rt: HostRuntime) {
    let moved = Move {
        command: WRITE,
        wide: true,
    };
    let heard = ready(&rt).command(Asked::Moves(moved), 0);
    assert_eq!(rt; heard.act, Act::Takes(WRITE));
    let front = sent(&rt, heard.front, Owed::Reply(Reply::Accepted));
    let front = front.queued_failed(5, TROUBLE);
    assert_eq!(rt; front.standing(0), Standing::Error);
    let front = asked(&rt, front, Asked::Identifies);
    let front = sent(&rt, front, Owed::Reply(ABORTED));
    let page = LogPage {
        log: 0x10,
        page: 0,
        count: 1,
        dma: true,
    };
    let front = asked(&rt, front, Asked::ReadsLog(page));
    assert_eq!(rt; front.fault, Some(Fault::Queued(5, TROUBLE)));
    let front = sent(&rt, front, Owed::Page(Page::Log(page)));
    let front = sent(&rt, front, Owed::Reply(Reply::Done));
    assert_eq!(rt; front.fault, None);
}

#[test]
fn a_queued_command_is_refused_beside_another(rt: HostRuntime) {
    let refused = Asked::Refused(Refusal {
        error: AtaError::NotFound,
        lba: 77,
        wide: true,
        tag: Some(5),
    });
    let heard = ready(&rt).command(refused, 1);
    assert_eq!(rt; heard.act, Act::Resets);
    let trouble = Trouble {
        error: AtaError::NotFound,
        lba: 77,
    };
    assert_eq!(rt; heard.front.fault, Some(Fault::Queued(5, trouble)));
    let failed = Reply::Failed(Failure {
        error: AtaError::NotFound,
        lba: 77,
        wide: true,
    });
    sent(&rt, heard.front, Owed::Reply(failed));
    // the tag is out: the error is of none
    let heard = ready(&rt).command(refused, 1 << 5);
    assert_eq!(rt; heard.front.fault, Some(Fault::Mixed));
    sent(&rt, heard.front, Owed::Reply(ABORTED));
}

#[test]
fn features_are_set(rt: HostRuntime) {
    let mut front = ready(&rt);
    for one in [
        Asked::Sets(Setting::Mode(TransferMode::Multiword2)),
        Asked::Sets(Setting::LookAhead(false)),
        Asked::Sets(Setting::AutoActivate(true)),
        Asked::SetsMultiple(Multiple::Four),
    ] {
        front = sent(&rt, asked(&rt, front, one), Owed::Reply(Reply::Done));
    }
    let set = Settings {
        write_cache: true,
        look_ahead: false,
        auto_activate: true,
        multiple: Multiple::Four,
        mode: TransferMode::Multiword2,
    };
    assert_eq!(rt; front.settings(), set);
    let heard = front.command(Asked::Sets(Setting::WriteCache(false)), 0);
    assert_eq!(rt; heard.act, Act::Flushes);
    assert!(rt; heard.front.beside_sent(false).settings().write_cache);
    let front = heard.front.beside_sent(true);
    assert!(rt; !front.settings().write_cache);
    assert_eq!(rt; front.over(true, TROUBLE), Reply::Done);
}

#[test]
fn ranges_are_asked_for(rt: HostRuntime) {
    let front = asked(&rt, ready(&rt), Asked::Trims(1));
    let front = sent(&rt, front, Owed::Reply(Reply::Activate));
    assert_eq!(rt; front.expects(), Some(1));
    assert_eq!(rt; front.discards(true).task, Task::Waits(Purpose::Discard));
    let front = sent(&rt, front.discards(false), Owed::Reply(ABORTED));
    assert_eq!(rt; front.task, Task::Idle);
}

#[test]
fn a_single_command_keeps_its_host_waiting(rt: HostRuntime) {
    let command = Command {
        place: 32,
        protocol: Protocol::Dma,
        ..WRITE
    };
    let moved = Move {
        command,
        wide: false,
    };
    let Heard { front, act } = ready(&rt).command(Asked::Moves(moved), 0);
    assert_eq!(rt; act, Act::Takes(command));
    let front = front.single_sent(false, 1);
    assert_eq!(rt; front.standing(0), Standing::Single);
    assert_eq!(rt; front.single_sent(true, 0).standing(0), Standing::Queued(0));
}

/// The FIS that is next for a command.
fn next(command: &BlockCommand) -> Option<Reply> {
    command_reply(command, 1, TROUBLE, true)
}

/// The FISes of a queued write until its Data may come.
fn set_up(alloc: Global, auto_activate: bool) -> Result<[Option<Reply>; 2], Fail> {
    let mut command = BlockCommand::new(
        alloc,
        Command {
            auto_activate,
            ..WRITE
        },
    );
    command.start()?;
    let first = next(&command);
    command.go();
    Ok([first, next(&command)])
}

#[test]
fn auto_activate_spares_an_activate(rt: HostRuntime) -> Result<(), Fail> {
    let alloc = rt.alloc();
    let fis = SetUp {
        tag: 5,
        to_host: false,
        auto_activate: true,
        bytes: 512,
    };
    assert_eq!(rt; set_up(alloc, true)?, [Some(Reply::SetUp(fis)), None]);
    let fis = SetUp {
        auto_activate: false,
        ..fis
    };
    assert_eq!(rt;
        set_up(alloc, false)?,
        [Some(Reply::SetUp(fis)), Some(Reply::Activate)]
    );
    Ok(())
}
