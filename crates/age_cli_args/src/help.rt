//! The texts of the help.

/// The version of the workspace, which `--version` prints. A release has the date of its commit in
/// place of `not a release` (release/build).
pub(crate) const VERSION: &str = "2.0.0 (not a release)";

pub(crate) const PROGRAM: &str = "Encrypt, decrypt and inspect age files (age-encryption.org/v1).";

/// The usage of the program, which may be run without arguments. `clap` wouldn't say so of a
/// program that has commands.
pub const USAGE: &str = "age_tool [COMMAND]";

pub(crate) const AFTER_PROGRAM: &str =
    "With no arguments it inspects standard input, as `age_tool inspect` does.

Exit status: 0 on success; 1 on a fault: one line with its number and name, such
as `age_tool: 13 WrongKey`, and one that says what to do; 2 for a bad command
line, and then no file has changed.

Faults: 1-8: not an age file, or a damaged or truncated header; 9-15: not
decrypted with this key; 16-22: a damaged or truncated payload, or extra data
after it; 23-25, 30, 31: position, file and earlier output don't match; 26: a
file can't be read; 27: one can't be written; 28: out of memory; 29: an input
never ends. `age_tool help 13` explains 13. So do `man age_tool-faults` and
share/doc/age_tool/FAULTS.md of a release.

A name is a path: `-` is a file of that name; /dev/stdin and /dev/stdout are the
standard streams. OUT must not be one of the input files, under any name.

From age: `age -p -o OUT IN` is `age_tool encrypt --pass FILE IN OUT`, and
`age -d -o OUT IN` is `age_tool decrypt --pass FILE IN OUT`, where FILE holds
the passphrase. age_tool never prompts.

`age_tool COMMAND --help` explains a command.";

pub(crate) const ENCRYPT: &str = "Encrypt a file with a passphrase";

pub(crate) const ENCRYPT_USAGE: &str = "age_tool encrypt [OPTIONS] --pass <FILE> <IN> <OUT>";

pub(crate) const AFTER_ENCRYPT: &str = "Example:
    age_tool encrypt --no-clobber --pass passphrase.txt notes.txt notes.txt.age

`age -d` opens the result if the passphrase is one line that can be typed. OUT
stays unchanged until the first byte is written. If encryption stops after that,
what it has written stays in OUT.";

pub(crate) const DECRYPT: &str = "Decrypt an age file";

/// The usage of `decrypt`. One of the three options is required, which `clap` wouldn't say, since
/// its rules here are simple ones.
pub(crate) const DECRYPT_USAGE: &str = "age_tool decrypt [OPTIONS]
       <--pass <FILE>|--file-key <HEX>|--shared <FILE>> <IN> <OUT>";

pub(crate) const AFTER_DECRYPT: &str = "Example:
    age_tool decrypt --no-clobber --pass passphrase.txt notes.txt.age notes.copy

One of --pass, --file-key and --shared is required. Every chunk is checked
before it is written. Only status 0 means that OUT is the complete plaintext:
after a fault it is unchanged, or holds the part that was checked so far (after
27 perhaps followed by its old contents).";

pub(crate) const RESUME: &str = "Continue a decryption that stopped";

pub(crate) const RESUME_USAGE: &str = "age_tool resume [OPTIONS] --position <FILE> --old <FILE>
       <--pass <FILE>|--file-key <HEX>|--shared <FILE>> <IN> <OUT>";

pub(crate) const AFTER_RESUME: &str = "Example:
    age_tool resume --position notes.position --old notes.part \\
        --no-clobber --pass passphrase.txt notes.txt.age notes.copy

One of --pass, --file-key and --shared is required. `resume` copies the part
already decrypted from the earlier output, decrypts the rest, and writes the
complete plaintext to OUT. It refuses a position that belongs to another file or
was altered, or that doesn't match the earlier output. Only status 0 means that
OUT is the complete plaintext. A position saved by this run belongs to this
run's OUT, and --save may overwrite the file of --position. If none was saved,
the old position still belongs to the earlier output.";

pub(crate) const INSPECT: &str = "Show what the header of an age file says";

pub(crate) const INSPECT_USAGE: &str = "age_tool inspect [FILE]";

pub(crate) const AFTER_INSPECT: &str = "Example:
    age_tool inspect notes.txt.age

Nothing is decrypted. The report gives the length of the header, its stanzas,
the number of bytes after it, and the length of the plaintext, provided the file
is complete, which isn't checked.";

pub(crate) const DRILL: &str = "Show how a reader reacts to lost, repeated or altered pieces";

pub(crate) const DRILL_USAGE: &str = "age_tool drill <--clear|--pass <FILE>> <SCRIPT> <IN>";

pub(crate) const AFTER_DRILL: &str = "Example:
    age_tool drill --pass passphrase.txt script.txt notes.txt.age

One of --clear and --pass is required. Each line of the script ends with a
newline and is one of:

  piece OFFSET LENGTH  deliver these bytes of the payload
  flip OFFSET          invert all bits of this byte in later pieces
  end                  end the input
  restart INDEX        start again at this chunk

For each line the drill prints its number, the reader's status (open, last,
done, failed-N or refused-25) and the number of plaintext bytes held. A script
has at most 1,000 lines and 1,048,576 bytes, a payload at most 16,777,216 bytes.
With --pass an altered byte is refused (failed-17): try `flip 0` first. With
--clear only an altered mark is.";

pub(crate) const PASS: &str = "File with the passphrase, 1 to 65,536 bytes. The
passphrase is the file's contents; one trailing newline
is ignored, a carriage return isn't. With /dev/tty you
type it (it is shown), and end with Ctrl-D";

pub(crate) const LOG: &str = "Work factor, 1 to 22 [default: 18]. Opening the file
takes 2^N KiB of memory; each step doubles the time";

pub(crate) const RANDOM: &str = "Read 48 random bytes from FILE [default:
/dev/urandom]. Never use the same bytes for two files";

pub(crate) const FILE_KEY: &str = "The file key, 32 hexadecimal digits. Visible to other
users in the process list";

pub(crate) const SHARED: &str = "File with the shared secret of an X25519 stanza and
then its recipient, 32 bytes each";

pub(crate) const MAX_LOG: &str = "With --pass, refuse work factors above N, 1 to 22
[default: 22]. One of 22 takes 4 GiB of memory";

pub(crate) const SAVE: &str = "If decryption stops at a fault, save its position here,
for `resume`. A run that is killed, as by Ctrl-C, saves
none. Must not be a file that this command reads or
writes. Takes three times the processor time, whatever
IN is. Best on a disk that OUT can't fill";

pub(crate) const SAVE_AGAIN: &str = "If decryption stops at a fault, save its position here.
A run that is killed, as by Ctrl-C, saves none. Must
not be a file that this command reads or writes, except
that of --position. Takes three times the processor
time, whatever IN is. Best on a disk that OUT can't
fill";

pub(crate) const NO_SYNC: &str = "Don't wait until OUT, a regular file or a block device,
has reached the disk. Errors reported only then (NFS,
quotas) go unnoticed";

pub(crate) const NO_CLOBBER: &str = "Refuse an existing OUT (27); it stays unchanged";

pub(crate) const NO_CLOBBER_OR_SAVE: &str = "Refuse an existing OUT (27); it stays unchanged. The
file of --save must be new or empty";

pub(crate) const NO_CLOBBER_AGAIN: &str = "Refuse an existing OUT (27); it stays unchanged. The
file of --save must be new, empty or that of
--position";

pub(crate) const PROGRESS: &str = "Show on standard error how much of IN has been read; at
a terminal also how fast, and how long the rest takes";

pub(crate) const POSITION: &str = "File with the position that the stopped run saved";

pub(crate) const OLD: &str = "The output of the stopped run; not the same file as IN,
OUT or that of --save. It may be missing if the run
stopped at chunk 0";

pub(crate) const PLAIN_IN: &str = "The file to encrypt";

pub(crate) const FILE_OUT: &str = "The age file to write; not the same file as one that is read";

pub(crate) const FILE_IN: &str = "The age file to decrypt";

pub(crate) const PLAIN_OUT: &str =
    "The file to write; not the same file as one that is read, nor that of
--save";

pub(crate) const WHOLE_OUT: &str =
    "The file to write; not the same file as one that is read, nor that of
--save";

pub(crate) const CLEAR: &str = "IN is a payload in the clear: chunks of 4 bytes, each
followed by a mark of 16: the chunk's number in 11, 1 in
the last chunk, else 0, and 4 zero bytes. Nothing is
encrypted, and altered text isn't noticed";

pub(crate) const SCRIPT: &str = "The file with the script";

pub(crate) const DRILLED: &str =
    "The age file whose payload is delivered; with --clear, the payload";

pub(crate) const INSPECTED: &str = "The age file; standard input if none is named";
