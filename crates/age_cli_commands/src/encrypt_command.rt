//! The command `encrypt`.

ghost use Rattle.std.specs.Prelude.{◌≡◌, ℕ, List, IfOk, IfErr, IfSome};
ghost use Rattle.age_cli_files.specs.{NotedSince, HasGiven};
ghost use Rattle.age_cli_args.specs.{option_text};
ghost use Rattle.age_cli_args.specs.declared.request.Request.TheVariants.{Encrypt};
ghost use Rattle.age_cli_common.specs.{random_name};
ghost use Rattle.age_file_encrypt.specs.Encrypts.{Encrypts};
ghost use Rattle.age_file_encrypt.specs.{EncryptsFront, IsFrontOf, SecretView};
ghost use Rattle.age_file_input.specs.{ports};
ghost use Rattle.age_cli_commands.specs.Effects.{Acts, HoldsAfter};
ghost use Rattle.age_cli_commands.specs.inner.{GivesPassphrase, IsMaterialGiven, IsNewBy, IsRandom, OpensFiles};
ghost use Rattle.age_cli_commands.specs.inner.{OpensOut, secret_of};

use crate::output::{
    Content, WritePlan, check_names, check_new, conclude_output, create_out, meter_for, open_in,
};
use crate::pending_stop::{CommandFailure, StopPoint, encrypt_outcome};
use crate::stop_point::attach_context;
use age_cli_args::Encrypting;
use age_cli_common::{
    CommandError, IdentityOption, OwnPassphrase, Usage, UsageError, bad_passphrase_file,
    count_held, passphrase_in, read_first,
};
use age_cli_files::{ErrorContext, FileError, FileSet, IfMissing, Purpose};
use age_fault::FileFault;
use age_file_encrypt::{Preamble, Secret, Written, encrypt_after};
use age_io::{Meter, ProgressSource};
use age_keys::{FileRandom, RANDOM_LEN};
use std::alloc::Global;

/// The source of random bytes, if no file is named.
const RANDOM: &str = "/dev/urandom";

/// Splits random bytes into a file key, a salt and a payload nonce. Returns `None` if they are too
/// few.
fn split_file_random(bytes: &[u8]) -> Option<FileRandom>
    ensures { IfSome result (λ r. IsRandom bytes.now r) }
{
    let front = bytes.first_chunk::<RANDOM_LEN>()?;
    Some(FileRandom::of(front))
}

/// Reads a file key, a salt and a payload nonce: the first 48 bytes of a file. Fails if it has
/// fewer.
fn read_random<'w, F: FileSet<'w>>(
    alloc: Global,
    files: &mut F,
    name: &'w str,
) -> Result<FileRandom, CommandError<'w>>
    ensures { OpensFiles (F.view files.old) (F.view files.new)
        (λ r. (bytes : List ℕ) × HasGiven (NotedSince (F.view files.old) (F.view files.new))
        name.now bytes × IsRandom bytes r) result }
{
    let mut source = open_in(alloc, files, name, IfMissing::Fails, Purpose::Input)?;
    let read = read_first(alloc, &mut source, RANDOM_LEN);
    let context = files.close_input(source);
    let bytes = match read {
        Ok(bytes) => bytes,
        Err(fault) => return Err(CommandError::Fault(FileError::new(fault, context))),
    };
    match split_file_random(bytes.as_slice()) {
        Some(random) => Ok(random),
        None => {
            let held = ErrorContext::Holds(name, Some(bytes.len()));
            Err(CommandError::Usage(UsageError::new(Usage::BadRandomFile, held)))
        }
    }
}

/// Reads the passphrase file. Fails if it holds no passphrase for this work factor.
fn read_passphrase_file<'w, F: FileSet<'w>>(
    alloc: Global,
    files: &mut F,
    asked: &Encrypting<'w>,
) -> Result<OwnPassphrase, CommandError<'w>>
    ensures { OpensFiles (F.view files.old) (F.view files.new)
        (GivesPassphrase (NotedSince (F.view files.old) (F.view files.new)) asked.now) result }
{
    let choice = IdentityOption::PassphraseFile(asked.pass, asked.log);
    let held = choice.read(alloc, files)?;
    let len = count_held(&held);
    match passphrase_in(held, asked.log) {
        Some(pass) => Ok(pass),
        None => Err(CommandError::Usage(bad_passphrase_file(asked.pass, len))),
    }
}

/// The passphrase with the work factor, and the random bytes, of which a secret is made.
#[derive(Drop)]
struct SecretParts {
    pass: OwnPassphrase,
    random: FileRandom,
}

/// Returns the name of the file of random bytes.
fn random_name<'a>(asked: &Encrypting<'a>) -> &'a str
    ensures { result.now ≡ random_name (option_text asked.now.random) }
{
    match asked.random {
        Some(name) => name,
        None => RANDOM,
    }
}

/// Reads the files of the passphrase and of random bytes. Fails before that, if the output is one
/// of the files that are read, or if a stream would be read twice.
fn read_material<'w, F: FileSet<'w>>(
    alloc: Global,
    files: &mut F,
    asked: &Encrypting<'w>,
    random_name: &'w str,
    writing: &WritePlan<'w>,
) -> Result<SecretParts, CommandError<'w>>
    ensures { OpensFiles (F.view files.old) (F.view files.new)
        (IsMaterialGiven (NotedSince (F.view files.old) (F.view files.new)) asked.now
        random_name.now) result }
{
    check_names(alloc, files, writing)?;
    let pass = read_passphrase_file(alloc, files, asked)?;
    let random = read_random(alloc, files, random_name)?;
    Ok(SecretParts { pass, random })
}

/// Returns the header and the payload nonce of an age file. Derives the key from the passphrase,
/// and then overwrites the passphrase, which is never too long.
fn make_preamble(alloc: Global, material: SecretParts) -> Result<Preamble, FileFault>
    ensures { IfOk result (IsFrontOf (secret_of material)) }
{
    let (pass, log) = material.pass.parts();
    let random = &material.random;
    match Secret::new(
        pass,
        log,
        &random.salt,
        &random.file_key,
        &random.payload_nonce,
    ) {
        Some(secret) => Preamble::of(alloc, &secret),
        None => unreachable!(),
    }
}

/// Opens the input, derives the key, and only then opens the output: a run that is killed meanwhile
/// leaves no empty file, and one that runs out of memory hasn't made one. An output that must be
/// new, and isn't, is refused before the key is derived.
fn open_encrypt_files<'w, F: FileSet<'w>>(
    alloc: Global,
    files: &mut F,
    writing: &WritePlan<'w>,
    material: SecretParts,
) -> Result<(F::In, F::Out, Preamble), CommandError<'w>>
    ensures { OpensOut writing.now.paths.to.now (F.view files.old) (F.view files.new)
        (λ r. IsFrontOf (secret_of material) r.2 × IsNewBy F.In.view F.Out.view F.size
        (NotedSince (F.view files.old) (F.view files.new)) writing.now.paths r.0 r.1) result }
{
    let source = open_in(
        alloc,
        files,
        writing.paths.from,
        IfMissing::Fails,
        Purpose::Input,
    )?;
    check_new(files, &writing.paths)?;
    let front = make_preamble(alloc, material)?;
    let out = create_out(alloc, files, writing)?;
    Ok((source, out, front))
}

/// Encrypts the input into the output, and shows progress if asked for. Returns the result and the
/// input.
fn seal_text<'w, F: FileSet<'w>, P: Meter>(
    files: &F,
    asked: &Encrypting<'w>,
    front: Preamble,
    source: F::In,
    out: &mut F::Out,
    progress: &mut P,
) -> (Result<Written, FileFault>, F::In)
    ensures done { (secret : SecretView) → IsFrontOf secret front
        → IfOk result.0 (Encrypts secret (ports (F.In.view source) (F.Out.view out.old))
        (ports (F.In.view result.1) (F.Out.view out.new))) }
    ensures fails { (secret : SecretView) → IsFrontOf secret front
        → IfErr result.0 (EncryptsFront secret (ports (F.In.view source) (F.Out.view out.old))
        (ports (F.In.view result.1) (F.Out.view out.new))) }
    ensures named { (F.In.view result.1).label ≡ (F.In.view source).label }
{
    let length = files.length(&source);
    let mut metered = ProgressSource::new(source, meter_for(&asked.paths, progress), length);
    let end = encrypt_after(front, &mut metered, out);
    metered.end();
    let ProgressSource { source, .. } = metered;
    (end, source)
}

/// Runs the command `encrypt`. If it isn't done, pass the result to [`conclude`](crate::conclude),
/// which reports why.
pub fn encrypt_file<'w, F: FileSet<'w>, P: Meter>(
    alloc: Global,
    files: &mut F,
    asked: &Encrypting<'w>,
    progress: &mut P,
) -> Result<(), CommandFailure<'w>>
    ensures { HoldsAfter (Acts (Encrypt asked.now) (F.view files.old)) (F.view files.new) result }
{
    let random_name = random_name(asked);
    let writing = WritePlan {
        passphrase_file: Some(asked.pass),
        other_secret_file: Some(random_name),
        position: None,
        old: None,
        save: None,
        paths: asked.paths,
        content: Content::AgeFile,
    };
    let material = read_material(alloc, files, asked, random_name, &writing)?;
    let (source, mut out, front) = open_encrypt_files(alloc, files, &writing, material)?;
    let (end, source) = seal_text(files, asked, front, source, &mut out, progress);
    let input = files.close_input(source);
    let engine = attach_context(
        encrypt_outcome(end),
        files.reason(&out),
        ErrorContext::Nothing,
        input,
    );
    conclude_output(files, out, &writing, StopPoint::without_position(), engine)
}
