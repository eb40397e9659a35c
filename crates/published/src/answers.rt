// What an example asks for: one of the public calls.
use crate::cells::Spot;
use crate::records::{lay_field, lay_read, lay_written};
use crate::text::Text;
use crate::whole::{lay_formed, lay_listed, lay_referred, lay_rewritten};
use std::io;
use std::io::Write;

#[derive(Clone, Copy)]
pub(crate) enum Call {
    Read,
    Field,
    Write,
    Form,
    References,
    Rewrite,
    List,
}

impl Call {
    pub(crate) fn named(name: &[u8]) -> Option<Call> {
        match name {
            b"read" => Some(Call::Read),
            b"field" => Some(Call::Field),
            b"write" => Some(Call::Write),
            b"form" => Some(Call::Form),
            b"references" => Some(Call::References),
            b"rewrite" => Some(Call::Rewrite),
            b"list" => Some(Call::List),
            _ => None,
        }
    }
}

pub(crate) fn lay_answer(
    out: &mut Text,
    call: Option<Call>,
    file: &[u8],
    spot: Spot,
) -> io::Result<()> {
    match call {
        None => out.write_all(b"no such call"),
        Some(Call::Read) => lay_read(out, file, spot),
        Some(Call::Field) => lay_field(out, file, spot),
        Some(Call::Write) => lay_written(out, file, spot),
        Some(Call::Form) => lay_formed(out, file),
        Some(Call::References) => lay_referred(out, file),
        Some(Call::Rewrite) => lay_rewritten(out, file, spot),
        Some(Call::List) => lay_listed(out, file),
    }
}
