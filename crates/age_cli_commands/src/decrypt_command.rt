//! Decryption, from the start of a file or from a position, and the command `decrypt`.

ghost use Rattle.std.specs.Prelude.{◌≡◌, [], IfSome, option_map};
ghost use Rattle.age_file_decrypt.specs.{DecryptsMarked, from_either};
ghost use Rattle.age_file_input.specs.{ports};
ghost use Rattle.age_cli_args.specs.{option_text};
ghost use Rattle.age_cli_args.specs.declared.request.Request.TheVariants.{Decrypt};
ghost use Rattle.age_cli_common.specs.{allows_by, refuses_by};
ghost use Rattle.age_cli_files.specs.{NotedSince, FilesView, PutsOnly};
ghost use Rattle.age_cli_commands.specs.Effects.{Acts, HoldsAfter};
ghost use Rattle.age_cli_commands.specs.Done.{CameFirst};
ghost use Rattle.age_cli_commands.specs.inner.Engines.{OpensOf, PortsOf, decrypt_engine, kept_for};
ghost use Rattle.age_cli_commands.specs.inner.{IsNewOld, IsSameOld, OpensFiles, RunsEngine, earlier_of, goes_on};

use crate::output::{
    Content, WritePlan, check_names, conclude_output, durable_len_at_end, meter_for, open_both,
};
use crate::pending_stop::CommandFailure;
use crate::stop_point::{
    attach_context, close_old, initial_position, positions_for, resume_point, to_outcome,
};
use age_cli_args::Decrypting;
use age_cli_common::{CommandError, Identity, IdentityOption};
use age_cli_files::FileSet;
use age_file_decrypt::{Checkpoints, Done, Stopped, decrypt_marked, resume_marked};
use age_file_position::{Position, PositionPolicy};
use age_io::{Meter, ProgressSource, Sink, Source};
use std::alloc::Global;

/// Reads the file that the identity option names, and returns the identity that opens the input.
/// Before that, fails if two names that must differ lead to one file, or two names of inputs to one
/// stream.
pub(crate) fn read_identity<'w, F: FileSet<'w>>(
    alloc: Global,
    files: &mut F,
    asked: &Decrypting<'w>,
    writing: &WritePlan<'w>,
) -> Result<Identity, CommandError<'w>>
    ensures { OpensFiles (F.view files.old) (F.view files.new)
        (OpensOf (NotedSince (F.view files.old) (F.view files.new)) asked.now) result }
{
    let choice = IdentityOption::of(&asked.identity)?;
    check_names(alloc, files, writing)?;
    let secret = choice.read(alloc, files)?;
    Ok(choice.identity(secret)?)
}

/// The earlier output, after which a decryption continues, and the position where it does.
#[derive(Drop)]
pub(crate) struct EarlierOutput<'w, S: Source> {
    pub(crate) position: Position,
    pub(crate) name: &'w str,
    pub(crate) source: S,
}

/// The output of a decryption, and the earlier output that is read before it, if there is one.
#[derive(Drop)]
pub(crate) struct DecryptFiles<'w, S: Source, O: Sink> {
    pub(crate) earlier: Option<EarlierOutput<'w, S>>,
    pub(crate) out: O,
}

/// An identity, an open input and open outputs: all that a decryption needs.
#[derive(Drop)]
pub(crate) struct DecryptJob<'w, S: Source, O: Sink> {
    pub(crate) identity: Identity,
    pub(crate) source: S,
    pub(crate) outputs: DecryptFiles<'w, S, O>,
}

/// The result of a decryption, and its checkpoints, if it came to its payload and positions are kept.
type Run = (Result<Done, Stopped>, Option<Checkpoints>);

/// Decrypts a source into the output, from its start or after an earlier output.
fn run_engine<S: Source, L: Source, O: Sink>(
    alloc: Global,
    positions: PositionPolicy,
    identity: Identity,
    source: &mut S,
    outputs: &mut DecryptFiles<'_, L, O>,
) -> Run
    ensures decrypts { DecryptsMarked positions (allows_by identity) (from_either (allows_by identity)
        (refuses_by identity) (goes_on L.view outputs.old.earlier outputs.new.earlier))
        (ports (S.view source.old) (O.view outputs.old.out))
        (ports (S.view source.new) (O.view outputs.new.out)) result.0 result.1 }
    ensures named { (S.view source.new).label ≡ (S.view source.old).label }
    ensures old { IsSameOld L.view outputs.old.earlier outputs.new.earlier }
{
    let out = &mut outputs.out;
    match &mut outputs.earlier {
        None => decrypt_marked(alloc, positions, identity, source, out),
        Some(old) => {
            let old_source = &mut old.source;
            resume_marked(
                alloc,
                positions,
                identity,
                &old.position,
                source,
                old_source,
                out,
            )
        }
    }
}

/// Decrypts the input into the output, and shows progress if asked for. Returns the result, the
/// input and the outputs.
fn decrypt_text<'w, F: FileSet<'w>, P: Meter>(
    alloc: Global,
    files: &F,
    writing: &WritePlan<'w>,
    ready: DecryptJob<'w, F::In, F::Out>,
    progress: &mut P,
) -> (Run, F::In, DecryptFiles<'w, F::In, F::Out>)
    ensures decrypts { DecryptsMarked (kept_for (option_text writing.now.save))
        (allows_by ready.entry.identity) (from_either (allows_by ready.entry.identity)
        (refuses_by ready.entry.identity)
        (goes_on F.In.view ready.entry.outputs.earlier result.2.earlier))
        (ports (F.In.view ready.entry.source) (F.Out.view ready.entry.outputs.out))
        (ports (F.In.view result.1) (F.Out.view result.2.out)) result.0.0 result.0.1 }
    ensures named { (F.In.view result.1).label ≡ (F.In.view ready.entry.source).label }
    ensures old { IsSameOld F.In.view ready.entry.outputs.earlier result.2.earlier }
{
    let DecryptJob {
        identity,
        source,
        mut outputs,
    } = ready;
    let positions = positions_for(writing.save);
    let length = files.length(&source);
    let mut metered = ProgressSource::new(source, meter_for(&writing.paths, progress), length);
    let run = run_engine(alloc, positions, identity, &mut metered, &mut outputs);
    metered.end();
    let ProgressSource { source, .. } = metered;
    (run, source, outputs)
}

/// Decrypts the input into the output, and closes all files. If the decryption stops, or the output
/// can't be closed, the position of the stop lies within the bytes that the output holds for
/// certain.
pub(crate) fn decrypt_ready<'w, F: FileSet<'w>, P: Meter>(
    alloc: Global,
    files: &mut F,
    writing: &WritePlan<'w>,
    ready: DecryptJob<'w, F::In, F::Out>,
    progress: &mut P,
) -> Result<(), CommandFailure<'w>>
    requires input { (F.In.view ready.source).label ≡ writing.now.paths.from.now }
    requires old { IfSome ready.outputs.earlier (λ e. (F.In.view e.source).label ≡ e.name.now) }
    ensures { (first : FilesView) → PutsOnly [] first (F.view files.old)
        → IfSome ready.entry.outputs.earlier (IsNewOld F.In.view F.size
        (NotedSince first (F.view files.old)))
        → HoldsAfter (λ after. RunsEngine (PortsOf F.In.view F.Out.view) (CameFirst first after)
        (NotedSince first after) (decrypt_engine (PortsOf F.In.view F.Out.view) (CameFirst first after)
        (option_text writing.now.save) ready.entry.identity
        (option_map earlier_of ready.entry.outputs.earlier))
        writing.now.paths (ports (F.In.view ready.entry.source) (F.Out.view ready.entry.outputs.out))
        (F.view files.old) after) (F.view files.new) result }
{
    let start = initial_position(&ready.outputs.earlier);
    let ((end, checkpoints), source, outputs) = decrypt_text(
        alloc, files, writing, ready, progress,
    );
    let DecryptFiles { earlier, mut out } = outputs;
    let old_context = close_old(files, earlier);
    let input_context = files.close_input(source);
    let durable = durable_len_at_end(files, &mut out, writing, end.is_err());
    let stop_point = resume_point(&end, &checkpoints, start, durable);
    let reason = files.reason(&out);
    let outcome = attach_context(to_outcome(&end), reason, old_context, input_context);
    conclude_output(files, out, writing, stop_point, outcome)
}

/// Runs the command `decrypt`. If it isn't done, pass the result to [`conclude`](crate::conclude),
/// which reports why and saves the position of a stop.
pub fn decrypt_file<'w, F: FileSet<'w>, P: Meter>(
    alloc: Global,
    files: &mut F,
    asked: &Decrypting<'w>,
    progress: &mut P,
) -> Result<(), CommandFailure<'w>>
    ensures { HoldsAfter (Acts (Decrypt asked.now) (F.view files.old)) (F.view files.new) result }
{
    let writing = WritePlan {
        passphrase_file: asked.identity.pass,
        other_secret_file: asked.identity.shared,
        position: None,
        old: None,
        save: asked.save,
        paths: asked.paths,
        content: Content::Plaintext,
    };
    let identity = read_identity(alloc, files, asked, &writing)?;
    let (source, out) = open_both(alloc, files, &writing)?;
    let earlier = None;
    let outputs = DecryptFiles { earlier, out };
    let ready = DecryptJob {
        identity,
        source,
        outputs,
    };
    decrypt_ready(alloc, files, &writing, ready, progress)
}
