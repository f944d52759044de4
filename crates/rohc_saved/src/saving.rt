//! A concentrator as octets (docs/FORMATS.md).

ghost use Rattle.std.specs.Prelude.{◌≡◌, ◌+◌, ◌≤◌, ◌++◌, ◌%◌, ◌^◌, ℕ, List, Option, flat_map, map, length, None, IfOk, IfErr};
ghost use Rattle.rohc_context.specs.Record.{Record};
ghost use Rattle.rohc_concentrator.specs.Tables.{settings_in_order, setting_at};
ghost use Rattle.rohc_saved.specs.Form.{Link, contexts_in, long as long_text, size_octet, context_text, contexts_of, saved_link_of, head_text, link_text, start_text, form_of, form_text, saved_form, saved_link};
ghost use Rattle.rohc_saved.specs.Output.{IsPut, IsWhole, IsPartWritten, SaveFails, SavesLink};

use crate::fault::SaveFault;
use crate::output::Output;
use crate::part::{Part, context_part, put, put_quad, put_word};
use indexmap::IndexMap;
use rohc_concentrator::{Concentrator, LinkRecords, LinkSetting};
use rohc_context::Context;
use rohc_frame::CidKind;
use std::io::Write;

/// The octets that each saved concentrator begins with.
pub(crate) const MAGIC: &[u8; 9] = b"Polorowan";

/// The version of the format.
pub(crate) const VERSION: u16 = 1;

/// Appends a number of 64 bits.
#[tactic(auto, unfolding(crate::specs::Form::long))]
fn put_long(text: &mut Part, value: u64)
    requires { length text.old.items + 8 ≤ 77 }
    ensures text { text.new.items ≡ text.old.items ++ long_text value }
    ensures length { length text.new.items ≡ length text.old.items + 8 }
{
    put_quad(text, (value >> 32) as u32);
    put_quad(text, (value % (1 << 32)) as u32);
}

/// The low 16 bits of a count.
fn low_bits(count: usize) -> u16
    ensures { result ≡ count % 2 ^ 16 }
{
    (count % 65_536) as u16
}

/// The octet of a CID kind.
pub fn size_octet(size: CidKind) -> u8
    ensures { result ≡ size_octet size }
{
    match size {
        CidKind::Small => 0,
        CidKind::Large => 1,
    }
}

/// The octets of a link before its contexts.
#[tactic(auto, unfolding(crate::specs::Form::head_text))]
fn head_part(setting: &LinkSetting, count: usize) -> Part
    ensures { (contexts : List (ℕ × Record)) → length contexts ≡ count →
        result.items ≡ head_text (setting.now.link, record { size = setting.now.settings.size; greatest = setting.now.settings.max_cid; contexts = contexts }) }
{
    let mut text = Part::new();
    put_word(&mut text, setting.link);
    put(&mut text, &[size_octet(setting.settings.size), 0]);
    put_word(&mut text, setting.settings.max_cid);
    put_word(&mut text, low_bits(count));
    text
}

/// The octets before so many links of a concentrator that is saved at this moment.
#[tactic(auto, unfolding(crate::specs::Form::start_text))]
pub fn start_part(moment: u64, count: usize) -> Part
    ensures { (links : List (ℕ × Link)) → length links ≡ count →
        result.items ≡ start_text (record { moment = moment; links = links }) }
{
    let mut text = Part::new();
    put(&mut text, MAGIC);
    put_word(&mut text, VERSION);
    put_long(&mut text, moment);
    put_word(&mut text, low_bits(count));
    text
}

/// Puts out the contexts of a link.
fn put_contexts<W: Write>(out: &mut Output, writer: &mut W, contexts: &IndexMap<u16, Context>)
    ensures { (held : Option (List ℕ)) (text : List ℕ) → IsPut held (W.contents writer.old) text out.old →
        IsPut held (W.contents writer.new) (text ++ flat_map context_text (contexts_in contexts.now)) out.new }
{
    for (cid, context) in contexts {
        out.put(writer, context_part(*cid, context).as_slice());
    }
}

/// Puts out a link of a concentrator.
fn put_link<W: Write>(
    out: &mut Output,
    writer: &mut W,
    concentrator: &Concentrator,
    setting: &LinkSetting,
)
    ensures { (held : Option (List ℕ)) (text : List ℕ) → IsPut held (W.contents writer.old) text out.old →
        IsPut held (W.contents writer.new) (text ++ link_text (saved_link_of concentrator.now setting.now)) out.new }
{
    match concentrator.tables().get(&setting.link) {
        Some(records) => {
            out.put(
                writer,
                head_part(setting, records.contexts.len()).as_slice(),
            );
            put_contexts(out, writer, &records.contexts);
        }
        None => out.put(writer, head_part(setting, 0).as_slice()),
    }
}

/// Puts out all links of a concentrator.
fn put_links<W: Write>(out: &mut Output, writer: &mut W, concentrator: &Concentrator)
    ensures { (held : Option (List ℕ)) (text : List ℕ) → IsPut held (W.contents writer.old) text out.old →
        IsPut held (W.contents writer.new) (text ++ flat_map link_text (map (saved_link_of concentrator.now) (settings_in_order concentrator.now))) out.new }
{
    for (_, records) in concentrator.tables() {
        put_link(out, writer, concentrator, &records.setting);
    }
}

/// Writes a concentrator. Returns how many octets were written; the error is how many were before a write failed.
#[tactic(auto, unfolding(crate::specs::Form::form_text))]
fn write_all<W: Write>(concentrator: &Concentrator, moment: u64, writer: &mut W) -> Result<u64, u64>
    ensures whole { IfOk result (IsWhole (W.contents writer.old) (W.contents writer.new)
        (saved_form moment concentrator.now)) }
    ensures fault { IfErr result (IsPartWritten (W.contents writer.old) (W.contents writer.new)
        (saved_form moment concentrator.now)) }
{
    let mut out = Output::new();
    let start = start_part(moment, concentrator.tables().len());
    out.put(writer, start.as_slice());
    put_links(&mut out, writer, concentrator);
    out.finish(writer)
}

/// Writes the link of this setting alone, as `write_all` does.
#[tactic(auto, unfolding(crate::specs::Form::form_text))]
fn write_link<W: Write>(
    concentrator: &Concentrator,
    setting: &LinkSetting,
    moment: u64,
    writer: &mut W,
) -> Result<u64, u64>
    ensures whole { IfOk result (IsWhole (W.contents writer.old) (W.contents writer.new)
        (saved_link moment concentrator.now setting.now)) }
    ensures fault { IfErr result (IsPartWritten (W.contents writer.old) (W.contents writer.new)
        (saved_link moment concentrator.now setting.now)) }
{
    let mut out = Output::new();
    let start = start_part(moment, 1);
    out.put(writer, start.as_slice());
    put_link(&mut out, writer, concentrator, setting);
    out.finish(writer)
}

/// Writes a concentrator as it is saved at this moment, in milliseconds of the clock of the arrivals. Returns how many
/// octets were written.
///
/// The error is `Write`. It allocates no memory, and calls the writer once or more for each link and each context.
pub fn save<W: Write>(
    concentrator: &Concentrator,
    moment: u64,
    writer: &mut W,
) -> Result<u64, SaveFault>
    ensures whole { IfOk result (IsWhole (W.contents writer.old) (W.contents writer.new)
        (saved_form moment concentrator.now)) }
    ensures fault { IfErr result (SaveFails (W.contents writer.old) (W.contents writer.new)
        (saved_form moment concentrator.now)) }
{
    write_all(concentrator, moment, writer).map_err(|written| SaveFault::Write { written })
}

/// Writes one link of a concentrator in the same form.
///
/// The error is `NoLink`, before anything is written, or `Write`.
pub fn save_link<W: Write>(
    concentrator: &Concentrator,
    link: u16,
    moment: u64,
    writer: &mut W,
) -> Result<u64, SaveFault>
    ensures saved { SavesLink moment concentrator.now (setting_at concentrator.now link) (W.contents writer.old)
        (W.contents writer.new) result }
    ensures stays { setting_at concentrator.now link ≡ None → writer.new ≡ writer.old }
{
    let Some(records) = concentrator.tables().get(&link) else {
        return Err(SaveFault::NoLink);
    };
    match write_link(concentrator, &records.setting, moment, writer) {
        Ok(written) => Ok(written),
        Err(written) => Err(SaveFault::Write { written }),
    }
}
