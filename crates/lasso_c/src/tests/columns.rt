//! Calls on a whole column, each with what it has to write and to report.
use super::checks::{Seen, Told, UNSET, has_bytes, has_numbers, told};
use crate::{lasso_decode, lasso_decode_nulls, lasso_encode, lasso_encode_nulls};
use std::alloc::Global;

// A column that is encoded. Each output has at most nine elements.
pub struct Encoding {
    pub bytes: &'static [u8],
    pub offsets: &'static [u32],
    // The bitmap, for the call with nulls. A null has the code 7.
    pub present: Option<&'static [u8]>,
    // The room for codes, for offsets and for bytes.
    pub rooms: (usize, usize, usize),
    // The status and the report.
    pub want: Told,
    // What is written.
    pub codes: &'static [u32],
    pub texts: &'static [u8],
    pub ends: &'static [u32],
}

// No column, which is refused, with room for all.
pub const ENCODING: Encoding = Encoding {
    bytes: b"",
    offsets: &[],
    present: None,
    rooms: (9, 9, 9),
    want: (0, (0, 0, 0)),
    codes: &[],
    texts: b"",
    ends: &[],
};

// Encodes the column.
pub fn encodes(alloc: Global, row: &Encoding) -> Seen {
    let (mut codes, mut bytes, mut offsets, mut report) = ([9; 9], [9; 9], [9; 9], UNSET);
    let codes_out = &mut codes[..row.rooms.0.min(9)];
    let bytes_out = &mut bytes[..row.rooms.2.min(9)];
    let offsets_out = &mut offsets[..row.rooms.1.min(9)];
    let status = match row.present {
        None => {
            lasso_encode(
                alloc,
                row.bytes,
                row.offsets,
                codes_out,
                bytes_out,
                offsets_out,
                &mut report,
            )
        }
        Some(present) => {
            lasso_encode_nulls(
                alloc,
                row.bytes,
                row.offsets,
                present,
                7,
                codes_out,
                bytes_out,
                offsets_out,
                &mut report,
            )
        }
    };
    let is_written = has_numbers(&codes, row.codes) && has_bytes(&bytes, row.texts);
    let is_told = told(status, &report) == row.want && has_numbers(&offsets, row.ends);
    (status, is_written && is_told)
}

// Codes that are decoded.
pub struct Decoding {
    // The dictionary.
    pub texts: &'static [u8],
    pub ends: &'static [u32],
    pub codes: &'static [u32],
    // The code of a null, for the call with nulls.
    pub null: Option<u32>,
    // The room for offsets, which is at most 12, for bytes, at most 23, and for the bitmap, at most 3.
    pub rooms: (usize, usize, usize),
    // The status and the report.
    pub want: Told,
    // What is written.
    pub bytes: &'static [u8],
    pub offsets: &'static [u32],
    pub present: &'static [u8],
}

// No codes, which are refused, with room for all.
pub const DECODING: Decoding = Decoding {
    texts: b"",
    ends: &[],
    codes: &[],
    null: None,
    rooms: (12, 23, 3),
    want: (0, (0, 0, 0)),
    bytes: b"",
    offsets: &[],
    present: b"",
};

// Decodes the codes, and returns whether all is as the row has it.
pub fn decodes(row: &Decoding) -> bool {
    let (mut bytes, mut offsets, mut present, mut report) = ([9; 23], [9; 12], [9; 3], UNSET);
    let bytes_out = &mut bytes[..row.rooms.1.min(23)];
    let offsets_out = &mut offsets[..row.rooms.0.min(12)];
    let status = match row.null {
        None => {
            lasso_decode(
                row.texts,
                row.ends,
                row.codes,
                bytes_out,
                offsets_out,
                &mut report,
            )
        }
        Some(null) => {
            lasso_decode_nulls(
                row.texts,
                row.ends,
                row.codes,
                null,
                bytes_out,
                offsets_out,
                &mut present[..row.rooms.2.min(3)],
                &mut report,
            )
        }
    };
    let is_written = has_bytes(&bytes, row.bytes) && has_numbers(&offsets, row.offsets);
    let is_told = told(status, &report) == row.want && has_bytes(&present, row.present);
    is_written && is_told
}
