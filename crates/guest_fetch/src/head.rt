//! Header and FIS of a command.

ghost use Rattle.std.specs.Prelude.{◌≡◌, ◌<◌, ◌≤◌, nat_le, length, IfSome, is_some, IfOk};
ghost use Rattle.std.specs.Result.{result_err};
ghost use Rattle.fis_view.specs.Seen.{seen};
ghost use Rattle.hba_commands.specs.Requests.{request_of, sectors, work_of};
ghost use Rattle.guest_fetch.specs.Heads.{asked_work, cfis_of, fields_in, fis_refusal, head_of, is_command_view, other_kind as other_kind_of};
ghost use Rattle.guest_fetch.specs.Spans.{most_bytes};

mod saved;

use crate::header::Header;
use crate::refusal::Refusal;
use fis_view::{Fis, H2dFields, RegH2D};
use hba_commands::asked_by;
use slots::{Kind, Work};

/// Header and FIS of a command, as they were supplied.
#[derive(Clone, Copy, Debug)]
pub struct Head {
    /// The header.
    pub header: Header,
    /// The command FIS, a Register Host to Device FIS. Bytes past these are not sent.
    pub cfis: [u8; 20],
    /// What the FIS says.
    pub fields: H2dFields,
    /// What it asks for.
    pub work: Work,
}

// What its fields say.
fn fields_of(fis: &RegH2D<'_>) -> H2dFields
    ensures { result ≡ fields_in fis.now }
{
    H2dFields {
        pm_port: fis.pm_port(),
        c: fis.c(),
        command: fis.command(),
        features: fis.features(),
        lba: fis.lba(),
        device: fis.device(),
        count: fis.count(),
        icc: fis.icc(),
        control: fis.control(),
    }
}

// The fields of these 20 bytes, if they are a Register Host to Device FIS.
fn fields(cfis: &[u8; 20]) -> Option<H2dFields>
    ensures is { is_some result ≡ is_command_view (seen cfis.now) }
    ensures fields { IfSome result (λ fields. fields ≡ fields_in cfis.now) }
{
    match Fis::of(cfis) {
        Ok(Fis::RegH2D(fis)) => Some(fields_of(&fis)),
        _ => None,
    }
}

// A command that moves data beside those that `hba_commands` names.
fn other_kind(command: u8) -> Option<Kind>
    ensures { result ≡ other_kind_of command }
{
    match command {
        0x06 | 0x3D | 0x57 => Some(Kind::DmaOut),
        0x3F | 0xCE => Some(Kind::PioOut),
        _ => None,
    }
}

// The blocks that a Count of sixteen bits names.
fn blocks(count: u16) -> u32
    ensures is { result ≡ sectors count }
    ensures few { result ≤ 65536 }
{
    if count == 0 {
        0x1_0000
    } else {
        u32::from(count)
    }
}

// What it asks for, if it is one that `hba_commands` names.
fn known_work(fields: H2dFields) -> Work
    ensures is { result ≡ work_of (request_of fields) }
    ensures few { result.len ≤ most_bytes }
{
    asked_by(&fields)
}

// What a FIS with these fields asks for. It moves at most 65,536 sectors.
fn work(fields: H2dFields) -> Work
    ensures is { result ≡ asked_work fields }
    ensures few { result.len ≤ most_bytes }
{
    let other = if fields.c {
        other_kind(fields.command)
    } else {
        None
    };
    match other {
        Some(kind) => Work {
            kind,
            len: 512 * blocks(fields.count),
        },
        None => known_work(fields),
    }
}

// The first 20 of these bytes, where there are as many.
fn command_fis(raw: &[u8]) -> Option<[u8; 20]>
    ensures is { is_some result ≡ nat_le 20 (length raw.now) }
    ensures bytes { IfSome result (λ cfis. cfis ≡ cfis_of raw.now) }
{
    if raw.len() < 20 {
        return None;
    }
    let mut cfis = [0; 20];
    cfis.copy_from_slice(&raw[..20]);
    Some(cfis)
}

// Header and FIS as one, or why the command is not taken.
pub(crate) fn read_head(header: Header, raw: &[u8]) -> Result<Head, Refusal>
    requires { 0 < length raw.now }
    ensures refusal { result_err result ≡ fis_refusal header raw.now }
    ensures head { IfOk result (λ head. head ≡ head_of header raw.now) }
    ensures few { IfOk result (λ head. head.work.len ≤ most_bytes) }
{
    let none = Refusal::NoCommand {
        found: raw[0],
        dwords: header.dwords,
    };
    let Some(cfis) = command_fis(raw) else {
        return Err(none);
    };
    let Some(fields) = fields(&cfis) else {
        return Err(none);
    };
    if fields.pm_port != header.pm_port {
        return Err(Refusal::PmPort {
            found: fields.pm_port,
            wanted: header.pm_port,
        });
    }
    Ok(Head {
        header,
        cfis,
        fields,
        work: work(fields),
    })
}
