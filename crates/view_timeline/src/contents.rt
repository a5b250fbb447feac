//! What a packet says, in words.

use mate_num::{FRAGMENTS_MAX, HandlerId};
use packet_codec::{Packet, decode};
use view_records::Fill::{Number, Text};
use view_records::Ink;
use view_records::words::handler_name;
use vm_shape::Description;

/// Writes what the packet says that some bytes are; bytes that are no packet of the machine are written in hexadecimal digits.
pub fn write_contents(desc: &Description, bytes: &[u8], ink: &mut Ink) {
    match decode(desc, bytes) {
        Ok(Packet::Vector { versions }) => write_vector(desc, versions.as_slice(), ink),
        Ok(
            Packet::Status {
                handler,
                version,
                missing,
            },
        ) => {
            ink.line(
                "a status, which asks for fragments of version {} of {}:",
                &[
                    Number(u64::from(version)),
                    Text(handler_name(desc, handler)),
                ],
            );
            write_missing(missing, ink);
        }
        Ok(
            Packet::Fragment {
                handler,
                version,
                index,
                count,
                ..
            },
        ) => ink.line(
            "fragment {} of {} of version {} of {}",
            &[
                Number(u64::from(index)),
                Number(u64::from(count)),
                Number(u64::from(version)),
                Text(handler_name(desc, handler)),
            ],
        ),
        Ok(Packet::App { payload }) => {
            ink.text("a message");
            for value in payload.as_slice() {
                ink.text(" ");
                ink.value(i32::from(*value));
            }
        }
        Err(_) => {
            ink.text("no packet of this machine, ");
            ink.hex(bytes);
        }
    }
}

fn write_vector(desc: &Description, versions: &[u32], ink: &mut Ink) {
    ink.text("a vector,");
    let mut handler = 0u8;
    for version in versions {
        let name = handler_name(desc, HandlerId(handler));
        ink.line(" {} {}", &[Text(name), Number(u64::from(*version))]);
        handler = handler.saturating_add(1);
    }
}

/// The numbers of the fragments whose bits are in a word.
fn write_missing(missing: u32, ink: &mut Ink) {
    if missing == (1 << FRAGMENTS_MAX as u32) - 1 {
        ink.text(" all");
        return;
    }
    for index in 0..FRAGMENTS_MAX as u8 {
        if (missing >> index) & 1 == 1 {
            ink.line(" {}", &[Number(u64::from(index))]);
        }
    }
}
