//! A port as words, and back.

ghost use Rattle.std.specs.Prelude.{◌≡◌};
ghost use Rattle.pm_ports.specs.Saved.{KeepsPort, fits as fits_of, port_apart, put_port};

use super::Port;
use fis_view::Frame;
use saved_state::{RestoreError, Saved, Words};
use std::alloc::{AllocError, Global};

type Parts = ((Option<u32>, u32, u32), (Option<Frame>, Option<Frame>));

// Whether the present connection, the last that came and the last that went fit together.
fn fits(present: Option<u32>, last: u32, gone: u32) -> bool
    ensures { result ≡ fits_of present last gone }
{
    match present {
        Some(conn) => conn > 0 && conn == last && gone < conn,
        None => gone == last,
    }
}

impl Saved for Port {
    ghost put = { put_port };

    ghost keeps = { KeepsPort };

    ghost told_apart = { port_apart };

    fn save(&self, words: &mut Words) -> Result<(), AllocError> {
        self.down.save(words)?;
        self.up.save(words)?;
        self.gone.save(words)?;
        self.last.save(words)?;
        self.present.save(words)
    }

    fn restore(alloc: Global, words: &mut Words) -> Result<Port, RestoreError> {
        let ((present, last, gone), (up, down)) = match <Parts>::restore(alloc, words) {
            Ok(parts) => parts,
            Err(error) => return Err(error),
        };
        if !fits(present, last, gone) {
            return Err(RestoreError::Broken);
        }
        Ok(Port {
            present,
            last,
            gone,
            up,
            down,
        })
    }
}
