//! The text of a report.

ghost use Rattle.std.specs.Prelude.{◌≡◌, ◌++◌, IfOk, IfErr, OnOk};
ghost use Rattle.std.specs.String.{string_bytes};
ghost use Rattle.std.specs.List.{flat_map};
ghost use Rattle.age_fault.specs.declared.fault.FileFault.TheVariants.{Memory};
ghost use Rattle.age_cli.specs.{stanza_line, plain_line, report_text};

use age_fault::FileFault;
use age_file_inspect::{Report, StanzaReport};
use std::alloc::{AllocError, Global};

fn put_stanza(alloc: Global, out: &mut Vec<u8>, stanza: &StanzaReport) -> Result<(), AllocError>
    ensures { OnOk result (out.new.items ≡ out.old.items ++ stanza_line stanza.now) }
{
    let args = stanza.args;
    let body = stanza.body;
    out.extend_from_slice(b"stanza ")?;
    out.extend_from_slice(stanza.kind.as_slice())?;
    let numbers = format!(in alloc; " {args} {body}\n")?;
    out.extend_from_slice(numbers.as_bytes())
}

fn put_stanzas(alloc: Global, out: &mut Vec<u8>, stanzas: &[StanzaReport]) -> Result<(), AllocError>
    ensures { OnOk result (out.new.items ≡ out.old.items ++ flat_map stanza_line stanzas.now) }
{
    for stanza in stanzas {
        put_stanza(alloc, out, stanza)?;
    }
    Ok(())
}

fn plain_text(alloc: Global, plain: Option<u128>) -> Result<String, AllocError>
    ensures { IfOk result (λ t. string_bytes t ≡ plain_line plain) }
{
    match plain {
        None => format!(in alloc; "plain none\n"),
        Some(p) => format!(in alloc; "plain {p}\n"),
    }
}

/// Formats a report, one line a field.
pub(crate) fn format_report(alloc: Global, report: &Report) -> Result<Vec<u8>, FileFault>
    ensures text { IfOk result (λ v. v.items ≡ report_text report.now) }
    ensures memory { IfErr result (λ f. f ≡ Memory) }
{
    let header = report.header;
    let rest = report.rest;
    let mut out = Vec::new(alloc);
    let front = format!(in alloc; "version age-encryption.org/v1\nheader {header}\n")?;
    out.extend_from_slice(front.as_bytes())?;
    put_stanzas(alloc, &mut out, report.stanzas.as_slice())?;
    let middle = format!(in alloc; "rest {rest}\n")?;
    out.extend_from_slice(middle.as_bytes())?;
    let plain = plain_text(alloc, report.plain)?;
    out.extend_from_slice(plain.as_bytes())?;
    Ok(out)
}
