// Frames, field by field.

use crate::fields::{Fields, fields_of};
use crate::packets::only_message;

// The kind of a frame, the two sites and the number.
fn head(fields: &mut Fields) -> u8 {
    let kind = fields.tag(1, 2);
    fields.number(4);
    fields.number(4);
    fields.number(8);
    kind
}

/// The place of the first field that is wrong, if these bytes are no frame.
pub fn frame_wrong_at(bytes: &[u8]) -> Option<usize> {
    let mut fields = fields_of(bytes);
    if head(&mut fields) == 1 {
        only_message(&mut fields);
    }
    fields.end();
    fields.wrong_at()
}
