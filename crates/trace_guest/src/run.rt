//! A scenario as it goes on.

use crate::board::Board;
use crate::opening::{Opening, Setting};
use crate::parse::Action;
use crate::telling::Telling;
use crate::text::Reply;
use std::alloc::Global;
use std::fs::OpenFile;
use std::io::{Eprint, Read, Seek, Write};
use std::mem;
use std::rt::Files;
use trace_text::{Failure, Lines, Printer, Refusal, Wanted, Words, is_skipped, play_aside};

/// Plays the scenario line by line and writes what each line prints. A refused line ends it; the
/// lines before it have acted and printed. A line that prints something else than was expected ends
/// it, too; standard error gets both. Beside that it writes what happens, as far as that is to be told.
pub fn play_guest<H: Files + Eprint, W: Write>(
    rt: &H,
    alloc: Global,
    telling: Telling,
    input: &[u8],
    out: &mut W,
) -> Result<(), Failure> {
    let mut printer = Printer::new(alloc, telling.is_json());
    let mut scenario = Scenario::new(alloc, telling);
    let played = scenario.play_lines(rt, alloc, Lines::of(input), &mut printer, out);
    if let (Err(Failure::Unexpected { .. }), Some(mismatch)) = (played, printer.mismatch()) {
        // If standard error is closed, the exit status still tells.
        let _unheard = rt.eprintln(mismatch);
    }
    played
}

/// A scenario up to some line.
#[derive(Drop)]
struct Scenario<F: Drop> {
    telling: Telling,
    opening: Opening<F>,
    /// The board, once it is built.
    scene: Option<Scene<F>>,
}

impl<F: Read + Write + Seek + OpenFile + Drop> Scenario<F> {
    fn new(alloc: Global, telling: Telling) -> Scenario<F> {
        Scenario {
            telling,
            opening: Opening::new(alloc),
            scene: None,
        }
    }

    /// Does what all lines say.
    fn play_lines<'a, H: Files<File = F>, W: Write>(
        &mut self,
        files: &H,
        alloc: Global,
        mut lines: Lines<'a>,
        printer: &mut Printer<'a>,
        out: &mut W,
    ) -> Result<(), Failure> {
        for _ in 0..u64::MAX {
            let Some((line, text)) = lines.next_line() else {
                break;
            };
            if is_skipped(text) {
                continue;
            }
            let mut words = Words::of(line, text);
            let name = words.next_word().unwrap_or(&[]);
            if !play_aside(name, &mut words, &mut lines, printer)? {
                self.play_line(files, alloc, name, words, printer, out)?;
            }
        }
        self.end(alloc, printer, out)?;
        printer.end()
    }

    /// Does what one line of this name says.
    fn play_line<H: Files<File = F>, W: Write>(
        &mut self,
        files: &H,
        alloc: Global,
        name: &[u8],
        mut words: Words<'_>,
        printer: &mut Printer<'_>,
        out: &mut W,
    ) -> Result<(), Failure> {
        if let Some(scene) = &mut self.scene {
            return scene.play_line(alloc, name, words, printer, out);
        }
        match Setting::read(files, alloc, name, &mut words, &self.opening)? {
            Some(setting) => Ok(self.opening.set(setting)?),
            None => self.begin(alloc, name, words, printer, out),
        }
    }

    /// Builds the board at the first line that is not a setting, even if that line is refused, and
    /// does what it asks.
    // A function clears all its locals when it is called, and a controller is large: no other line
    // should pay for that.
    #[inline(never)]
    fn begin<W: Write>(
        &mut self,
        alloc: Global,
        name: &[u8],
        words: Words<'_>,
        printer: &mut Printer<'_>,
        out: &mut W,
    ) -> Result<(), Failure> {
        let opening = self.close_opening(alloc);
        let mut scene = Scene::open(alloc, self.telling, opening, printer, out)?;
        scene.play_line(alloc, name, words, printer, out)?;
        self.scene = Some(scene);
        Ok(())
    }

    /// What was said about the board, which is said once.
    fn close_opening(&mut self, alloc: Global) -> Opening<F> {
        mem::replace(&mut self.opening, Opening::new(alloc))
    }

    /// Builds the board if no line did.
    fn end<W: Write>(
        &mut self,
        alloc: Global,
        printer: &mut Printer<'_>,
        out: &mut W,
    ) -> Result<(), Failure> {
        if self.scene.is_none() {
            let opening = self.close_opening(alloc);
            self.scene = Some(Scene::open(alloc, self.telling, opening, printer, out)?);
        }
        Ok(())
    }
}

/// A board that is built.
#[derive(Drop)]
struct Scene<F: Drop> {
    board: Board<F>,
    /// Its last port.
    last: u8,
}

impl<F: Read + Write + Seek + OpenFile + Drop> Scene<F> {
    /// Builds the board and writes its sizes.
    fn open<W: Write>(
        alloc: Global,
        telling: Telling,
        opening: Opening<F>,
        printer: &mut Printer<'_>,
        out: &mut W,
    ) -> Result<Scene<F>, Failure> {
        let sizes = opening.sizes();
        let board = opening.into_board(alloc, telling)?;
        printer.print(alloc, &Reply::Board(sizes), out)?;
        Ok(Scene {
            board,
            last: sizes.ports - 1,
        })
    }

    /// Does what one line asks of the board.
    fn play_line<W: Write>(
        &mut self,
        alloc: Global,
        name: &[u8],
        mut words: Words<'_>,
        printer: &mut Printer<'_>,
        out: &mut W,
    ) -> Result<(), Failure> {
        let action = Action::read(alloc, name, &mut words, self.last)?;
        let reply = self.act(alloc, action, &words, out)?;
        printer.print(alloc, &reply, out)
    }

    /// Does what one line asks, and gives what is printed about it. A place that is not all memory is
    /// `range`; a disk that comes where it is, or goes where it is not, is `order`.
    fn act<W: Write>(
        &mut self,
        alloc: Global,
        action: Action,
        words: &Words<'_>,
        out: &mut W,
    ) -> Result<Reply, Failure> {
        let reply = match action {
            Action::Came(port) => match self.board.plug(port) {
                Some(conn) => Reply::Came { port, conn },
                None => return Err(words.refused_at(2, Refusal::Order, Wanted::DiskAway)),
            },
            Action::Gone(port) => match self.board.pull(alloc, port) {
                Some(conn) => Reply::Gone { port, conn },
                None => return Err(words.refused_at(2, Refusal::Order, Wanted::DiskThere)),
            },
            Action::Read(offset) => {
                let value = self.board.read(offset, out)?;
                Reply::Read { offset, value }
            }
            Action::Write(offset, value) => {
                Reply::Written(self.board.write(offset, value, out)?)
            }
            Action::Put(at, bytes) => {
                let bytes = bytes.as_slice();
                if self.board.put(at, bytes).is_err() {
                    return Err(words.refused_at(2, Refusal::Range, Wanted::GuestArea));
                }
                self.board.tell_put(at, bytes, out)?;
                Reply::Put
            }
            Action::Show(at, len) => self.show(alloc, at, len, words)?,
            Action::Settle(fises) => match self.board.settle(alloc, fises, out)? {
                true => Reply::Settled,
                false => Reply::Unsettled,
            },
            Action::Line => Reply::Line(self.board.line()),
        };
        Ok(reply)
    }

    /// So many bytes of the guest's memory, from an address on.
    fn show(&self, alloc: Global, at: u64, len: u32, words: &Words<'_>) -> Result<Reply, Failure> {
        let mut bytes = vec![in alloc; 0; len as usize]?;
        match self.board.show(at, &mut bytes) {
            Ok(()) => {
                let digits = hex::encode(alloc, &bytes)?;
                Ok(Reply::Shown { at, digits })
            }
            Err(_) => Err(words.refused_at(2, Refusal::Range, Wanted::GuestArea)),
        }
    }
}
