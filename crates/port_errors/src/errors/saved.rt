//! The errors of a host port as words, and back.

ghost use Rattle.std.specs.Prelude.{◌≡◌, ◌<◌, length, IfSome};
ghost use Rattle.port_errors.specs.Errors.{AreErrors};
ghost use Rattle.port_errors.specs.Saved.{errors_apart, fits as fits_of, put_errors};

use super::{PortErrors, lowest_marked};
use crate::cause::{DeviceCause, Stop};
use saved_state::{RestoreError, Saved, Words, save_all};
use std::alloc::{AllocError, Global};

type Parts = ([Option<DeviceCause>; 16], Option<u8>, Option<Stop>);

// Whether this device can be the one that is reported.
fn fits(causes: &[Option<DeviceCause>], reported: Option<u8>) -> bool
    requires { length causes.now ≡ 16 }
    ensures { result ≡ fits_of causes.now reported }
{
    match reported {
        None => lowest_marked(causes).is_none(),
        Some(dev) => dev < 16 && causes[usize::from(dev)].is_some(),
    }
}

impl Saved for PortErrors {
    ghost put = { put_errors };

    ghost keeps = { AreErrors };

    ghost told_apart = { errors_apart };

    fn save(&self, words: &mut Words) -> Result<(), AllocError> {
        self.port.save(words)?;
        self.reported.save(words)?;
        save_all(&self.causes, words)
    }

    fn restore(alloc: Global, words: &mut Words) -> Result<PortErrors, RestoreError> {
        let (causes, reported, port) = match <Parts>::restore(alloc, words) {
            Ok(parts) => parts,
            Err(error) => return Err(error),
        };
        if !fits(&causes, reported) {
            return Err(RestoreError::Broken);
        }
        Ok(PortErrors {
            causes,
            reported,
            port,
        })
    }
}
