//! Header and FIS as words, and back.

ghost use Rattle.std.specs.Prelude.{◌≡◌};
ghost use Rattle.guest_fetch.specs.SavedCommands.{field_parts, fields_of_parts, head_words};

use super::Head;
use crate::header::Header;
use fis_view::H2dFields;
use saved_state::{RestoreError, Saved, Words};
use slots::Work;
use std::alloc::{AllocError, Global};

type FieldParts = ((u8, bool, u8), (u16, u64, u8), (u16, u8, u8));

type Parts = ((Header, [u8; 20]), (FieldParts, Work));

// The fields as they are saved.
fn parts_of(fields: H2dFields) -> FieldParts
    ensures { result ≡ field_parts fields }
{
    (
        (fields.pm_port, fields.c, fields.command),
        (fields.features, fields.lba, fields.device),
        (fields.count, fields.icc, fields.control),
    )
}

// The fields that are saved so.
fn fields_of(parts: FieldParts) -> H2dFields
    ensures { result ≡ fields_of_parts parts }
{
    let ((pm_port, c, command), (features, lba, device), (count, icc, control)) = parts;
    H2dFields {
        pm_port,
        c,
        command,
        features,
        lba,
        device,
        count,
        icc,
        control,
    }
}

impl Saved for Head {
    ghost put = { head_words.put };

    ghost keeps = { head_words.keeps };

    ghost told_apart = { head_words.apart };

    fn save(&self, words: &mut Words) -> Result<(), AllocError> {
        (parts_of(self.fields), self.work).save(words)?;
        (self.header, self.cfis).save(words)
    }

    fn restore(alloc: Global, words: &mut Words) -> Result<Head, RestoreError> {
        let ((header, cfis), (fields, work)) = match <Parts>::restore(alloc, words) {
            Ok(parts) => parts,
            Err(error) => return Err(error),
        };
        Ok(Head {
            header,
            cfis,
            fields: fields_of(fields),
            work,
        })
    }
}
