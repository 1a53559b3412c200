use fis_view::{
    Bytes, Fis, FisFault, Frame, FrameError, H2dFields, RegH2D, Stamp, is_frame_length,
    marks_keep_fields,
};
use std::alloc::{AllocError, Global};
use std::test::Fail;

pub const STAMP: Stamp = Stamp {
    port: 3,
    conn: 1,
    number: 7,
    shown: [0, 0, 2, 0, 0, 0, 0, 0, 0, 0, 0, 0, 0, 0, 9],
};

/// READ FPDMA QUEUED to port 3, tag 5, LBA 100h, one sector.
pub const READ: [u8; 20] = [
    0x27, 0x83, 0x60, 0x01, 0x00, 0x01, 0x00, 0x40, 0, 0, 0, 0, 0x28, 0, 0, 0, 0, 0, 0, 0,
];

/// Its fields.
const FIELDS: H2dFields = H2dFields {
    pm_port: 3,
    c: true,
    command: 0x60,
    features: 1,
    lba: 0x100,
    device: 0x40,
    count: 0x28,
    icc: 0,
    control: 0,
};

/// The fields that a view shows.
fn fields_of(fis: &RegH2D<'_>) -> H2dFields {
    H2dFields {
        pm_port: fis.pm_port(),
        c: fis.c(),
        command: fis.command(),
        features: fis.features(),
        lba: fis.lba(),
        device: fis.device(),
        count: fis.count(),
        icc: fis.icc(),
        control: fis.control(),
    }
}

/// Whether the frame of the command has a view with its bytes and its fields.
fn shows_command(frame: &Frame) -> bool {
    match frame.fis() {
        Ok(Fis::RegH2D(fis)) => fis.bytes() == READ.as_slice() && fields_of(&fis) == FIELDS,
        _ => false,
    }
}

#[test]
fn reads_a_command(rt: HostRuntime) -> Result<(), Fail> {
    let frame = Frame::from_bytes(rt.alloc(), &READ, STAMP)?;
    assert!(rt; shows_command(&frame));
    Ok(())
}

/// Whether a frame has this PM Port, these bytes and this stamp.
fn is(frame: &Frame, port: u8, bytes: &[u8], stamp: Stamp) -> bool {
    frame.pm_port() == port && frame.bytes() == bytes && frame.stamp() == stamp
}

/// The command with PM Port 0.
const MARKED: [u8; 20] = [
    0x27, 0x80, 0x60, 0x01, 0x00, 0x01, 0x00, 0x40, 0, 0, 0, 0, 0x28, 0, 0, 0, 0, 0, 0, 0,
];

const LATER: Stamp = Stamp {
    port: 3,
    conn: 4,
    number: 7,
    shown: [0, 0, 2, 0, 0, 0, 0, 0, 0, 0, 0, 0, 0, 0, 9],
};

#[test]
fn copies_and_marks(rt: HostRuntime) -> Result<(), Fail> {
    marks_keep_fields();
    let frame = Frame::from_bytes(rt.alloc(), &READ, STAMP)?;
    let mut copy = frame.copy(rt.alloc())?;
    assert!(rt; is(&copy, 3, &READ, STAMP));
    copy.set_pm_port(0);
    copy.set_stamp(LATER);
    assert!(rt; is(&copy, 0, &MARKED, LATER));
    assert!(rt; is(&frame, 3, &READ, STAMP));
    Ok(())
}

/// Whether bytes are these, and those of a copy of them too.
fn are(alloc: Global, bytes: &Bytes, wanted: &[u8]) -> Result<bool, AllocError> {
    let again = Bytes::from_slice(alloc, bytes.as_slice())?;
    let again = Bytes::from_vec(again.into_vec());
    Ok(bytes.as_slice() == wanted && again.as_slice() == wanted)
}

#[test]
fn bytes_are_those_of_the_frame(rt: HostRuntime) -> Result<(), Fail> {
    let bytes = Frame::from_bytes(rt.alloc(), &READ, STAMP)?.into_bytes();
    assert!(rt; are(rt.alloc(), &bytes, &READ)?);
    Ok(())
}

#[test]
fn a_frame_is_made_of_a_vec(rt: HostRuntime) -> Result<(), Fail> {
    let activate = Vec::from_slice(rt.alloc(), &[0x39, 2, 0, 0])?;
    assert!(rt; is_frame_length(&activate));
    let frame = Frame::from_vec(activate, STAMP);
    assert!(rt; is(&frame, 2, &[0x39, 2, 0, 0], STAMP));
    Ok(())
}

/// Whether so many bytes are refused, or a frame.
fn is_refused(alloc: Global, count: usize, refused: bool) -> bool {
    let bytes = [0; 8200];
    let bytes = bytes.get(..count).unwrap_or(&[]);
    match Frame::from_bytes(alloc, bytes, STAMP) {
        Ok(_) => !refused && is_frame_length(bytes),
        Err(fault) => refused && fault == FrameError::BadLength && !is_frame_length(bytes),
    }
}

#[test]
fn refuses_other_lengths(rt: HostRuntime) {
    for (count, refused) in [
        (0, true),
        (6, true),
        (8200, true),
        (4, false),
        (8196, false),
    ] {
        assert!(rt; is_refused(rt.alloc(), count, refused), "{count}");
    }
}

#[test]
fn a_short_payload_has_no_view(rt: HostRuntime) {
    assert!(rt; matches!(Fis::of(&[0x46, 0, 0, 0]), Err(FisFault::WrongLength)));
}

#[test]
fn refusals_have_texts(rt: HostRuntime) -> Result<(), AllocError> {
    let text = format!(in rt.alloc(); "{}, {}", FrameError::BadLength, FisFault::WrongLength)?;
    assert_eq!(rt; text.as_str(), "bad length, wrong length");
    Ok(())
}

/// A Data FIS of 8196 bytes, all 7 except the first.
fn long_payload(alloc: Global) -> Result<Frame, FrameError> {
    let mut bytes = Vec::from_elem(alloc, 7, 8196)?;
    if let Some(first) = bytes.first_mut() {
        *first = 0x46;
    }
    Frame::from_bytes(alloc, &bytes, STAMP)
}

/// Whether a frame carries 8,192 bytes, all 7, for port 7.
fn carries_sevens(frame: &Frame) -> bool {
    match frame.fis() {
        Ok(Fis::Payload(fis)) => {
            let sevens = fis.payload().iter().all(|byte| *byte == 7);
            sevens && fis.bytes().len() == 8196 && fis.pm_port() == 7
        }
        _ => false,
    }
}

#[test]
fn reads_a_long_payload(rt: HostRuntime) -> Result<(), Fail> {
    let frame = long_payload(rt.alloc())?;
    assert!(rt; carries_sevens(&frame));
    Ok(())
}

/// Whether these bytes are seen as a FIS of an unknown type, of this port.
fn is_unknown(bytes: &[u8], port: u8) -> bool {
    if bytes.len() < 4 || 8196 < bytes.len() || bytes.len() % 4 != 0 {
        return false;
    }
    match Fis::of(bytes) {
        Ok(Fis::Unknown(fis)) => fis.bytes() == bytes && fis.pm_port() == port,
        _ => false,
    }
}

#[test]
fn an_unknown_type_has_a_view(rt: HostRuntime) {
    assert!(rt; is_unknown(&[0x58, 0x12, 0, 0], 2));
}
