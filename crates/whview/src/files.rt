//! Reads a bundle from its file, with the lines of the files that its headings name in their places.

ghost use Rattle.std.specs.Prelude.{◌≡◌, ◌≢◌, ◌≤◌, ◌<◌, ◌++◌, ◌⊎◌, ℕ, List, [], ◌∷◌, length, vec_len, IfErr, IfOk, IsErrOf, OnOk};
ghost use Rattle.wh_text_bundle.specs.Files.{body_of_file, filed_bytes, filled};
ghost use Rattle.whview.specs.BundleFiles.{AreFilled, AreOfItsFiles};
ghost use Rattle.whview.specs.Inner.BundleFiles.{HoldsOfSome, IsBundleFault, IsFaultOf, IsFileFaultShown, IsFillingFault, IsLongPart, IsNamedFault, IsOwnFault, IsPartFault};
ghost use Rattle.whview.specs.Output.{IsNamedUnread};
ghost use Rattle.whview.specs.Status.{status_number};

use crate::answer::Answer;
use crate::status::Status;
use std::alloc::{AllocError, Global};
use std::fs::{self, Files};
use std::path::Path;
use std::str;
use wh_load::{ChunkedText, LoadFault, ReadFault, read_all};
use wh_stream::{CountedStream, Source};
use wh_text_bundle::{FiledPart, first_filed, lines_of_part};

/// Why a bundle cannot be had from its files.
#[derive(Drop)]
pub enum FileFault {
    /// The bundle's own file cannot be read, there are too many bytes, or memory was refused; or what was read has this fault.
    Input(LoadFault),
    /// A file that the bundle names cannot be read: its path, as the heading has it.
    Named(Vec<u8>),
}

impl FileFault {
    /// Makes the answer for the fault.
    /// Fails for want of memory, also where this is the fault: it has no answer.
    pub fn answer(&self, alloc: Global) -> Result<Answer, AllocError>
        ensures shown { IfOk result (λ a. IsFileFaultShown self.now a.text (status_number a.status)) }
        ensures told { OnOk result (self.now ≢ FileFault.Input LoadFault.Memory) }
    {
        match self {
            FileFault::Input(fault) => Answer::fault(alloc, fault),
            FileFault::Named(path) => named_unread(alloc, path),
        }
    }
}

/// The answer where a file cannot be read that a bundle names by this path.
fn named_unread(alloc: Global, path: &[u8]) -> Result<Answer, AllocError>
    ensures { IfOk result (λ a. IsNamedUnread path.now a.text (status_number a.status)) }
{
    let mut text = b"fault read ".to_vec(alloc)?;
    text.extend_from_slice(path)?;
    text.push(b'\n')?;
    Ok(Answer {
        text: ChunkedText::of(text),
        status: Status::Fault,
    })
}

/// The fault where a file cannot be read that a bundle names by this path.
fn named_fault(alloc: Global, path: &[u8]) -> FileFault
    ensures { IsNamedFault path.now result }
{
    match path.to_vec(alloc) {
        Ok(path) => FileFault::Named(path),
        Err(AllocError) => FileFault::Input(LoadFault::Memory),
    }
}

/// Adds the line of a heading.
fn put_heading(all: &mut Vec<u8>, heading: &[u8]) -> Result<(), AllocError>
    ensures { OnOk result (all.new.items ≡ all.old.items ++ (64 ∷ heading.now ++ 10 ∷ [])) }
{
    all.push(b'@')?;
    all.extend_from_slice(heading)?;
    all.push(b'\n')?;
    Ok(())
}

/// Adds the bytes of a file, as lines of a part.
fn put_lines(alloc: Global, all: &mut Vec<u8>, file: &[u8]) -> Result<(), AllocError>
    ensures { OnOk result (all.new.items ≡ all.old.items ++ body_of_file file.now) }
{
    let start = all.len();
    all.extend_from_slice(file)?;
    lines_of_part(alloc, all, start)
}

/// Adds a part: its heading, and the lines of its file, up to the limit.
fn put_part<R: Source>(
    alloc: Global,
    limit: usize,
    all: &mut Vec<u8>,
    heading: &[u8],
    file: &mut R,
) -> Result<(), ReadFault>
    ensures part { OnOk result (HoldsOfSome (R.remaining file.old) (λ bytes. all.new.items ≡ all.old.items ++ filed_bytes heading.now bytes)) }
    ensures within { OnOk result (vec_len all.new ≤ limit) }
    ensures too_long { IsErrOf result ReadFault.TooLong → HoldsOfSome (R.remaining file.old) (IsLongPart limit all.old.items heading.now) }
{
    if put_heading(all, heading).is_err() {
        return Err(ReadFault::Memory);
    }
    if all.len() > limit {
        return Err(ReadFault::TooLong);
    }
    let bytes = read_all(file, alloc, limit - all.len())?;
    if put_lines(alloc, all, &bytes).is_err() {
        return Err(ReadFault::Memory);
    }
    if all.len() > limit {
        return Err(ReadFault::TooLong);
    }
    Ok(())
}

/// Opens a file that a bundle names, as seen from the folder of the bundle's own.
fn open_beside<E: Files>(
    rt: &E,
    alloc: Global,
    bundle: &str,
    named: &[u8],
) -> Result<E::File, ReadFault>
    ensures { IfErr result (λ f. f ≢ ReadFault.TooLong) }
{
    let Ok(named) = str::from_utf8(named) else {
        return Err(ReadFault::Read);
    };
    let Ok(path) = Path::new(bundle).with_file_name(alloc, named) else {
        return Err(ReadFault::Memory);
    };
    match fs::open(rt, path) {
        Ok(file) => Ok(file),
        Err(_) => Err(ReadFault::Read),
    }
}

/// A bundle's own file, and the most bytes that it may have with those of the files that it names.
#[derive(Clone, Copy)]
pub struct BundleFile<'a> {
    /// The path of the file.
    pub path: &'a str,
    /// The most bytes.
    pub limit: usize,
}

/// Adds the part of a file that is opened first, up to the limit.
fn put_opened<E: Files>(
    rt: &E,
    alloc: Global,
    from: &BundleFile<'_>,
    all: &mut Vec<u8>,
    part: &FiledPart<'_>,
) -> Result<(), ReadFault>
    ensures part { OnOk result ((file : List ℕ) × (all.new.items ≡ all.old.items ++ filed_bytes part.now.heading.now file)) }
    ensures within { OnOk result (vec_len all.new ≤ from.now.limit) }
    ensures too_long { IsErrOf result ReadFault.TooLong → (file : List ℕ) × IsLongPart from.now.limit all.old.items part.now.heading.now file }
{
    match open_beside(rt, alloc, from.path, part.path) {
        Ok(file) => put_part(
            alloc,
            from.limit,
            all,
            part.heading,
            &mut CountedStream::new(file),
        ),
        Err(fault) => Err(fault),
    }
}

/// The fault where this came of the file that a bundle names by this path.
fn fault_of(alloc: Global, fault: &ReadFault, path: &[u8]) -> FileFault
    ensures { IsFaultOf fault.now path.now result }
{
    match fault {
        ReadFault::Read => named_fault(alloc, path),
        ReadFault::TooLong => FileFault::Input(LoadFault::TooLong),
        ReadFault::Memory => FileFault::Input(LoadFault::Memory),
    }
}

/// Adds bytes, up to the limit.
fn put(all: &mut Vec<u8>, bytes: &[u8], limit: usize) -> Result<(), FileFault>
    ensures bytes { OnOk result (all.new.items ≡ all.old.items ++ bytes.now) }
    ensures within { OnOk result (vec_len all.new ≤ limit) }
    ensures err { IfErr result (λ f. (f ≡ FileFault.Input LoadFault.Memory) ⊎ ((f ≡ FileFault.Input LoadFault.TooLong) × (limit < length (all.old.items ++ bytes.now)))) }
{
    if all.extend_from_slice(bytes).is_err() {
        return Err(FileFault::Input(LoadFault::Memory));
    }
    if all.len() > limit {
        return Err(FileFault::Input(LoadFault::TooLong));
    }
    Ok(())
}

/// Adds what stands above a part whose lines stand in a file, and the part, up to the limit.
fn put_filed<E: Files>(
    rt: &E,
    alloc: Global,
    from: &BundleFile<'_>,
    all: &mut Vec<u8>,
    part: &FiledPart<'_>,
) -> Result<(), FileFault>
    ensures part { OnOk result ((file : List ℕ) × (all.new.items ≡ (all.old.items ++ part.now.above.now) ++ filed_bytes part.now.heading.now file)) }
    ensures within { OnOk result (vec_len all.new ≤ from.now.limit) }
    ensures err { IfErr result (IsPartFault from.now.limit (all.old.items ++ part.now.above.now) part.now.heading.now part.now.path.now) }
{
    put(all, part.above, from.limit)?;
    match put_opened(rt, alloc, from, all, part) {
        Ok(()) => Ok(()),
        Err(fault) => Err(fault_of(alloc, &fault, part.path)),
    }
}

/// Returns the bytes of a bundle with the lines of the files that it names in their places, up to the limit.
fn fill<E: Files>(
    rt: &E,
    alloc: Global,
    from: &BundleFile<'_>,
    bundle: &[u8],
) -> Result<Vec<u8>, FileFault>
    ensures filled { IfOk result (λ all. (files : List (List ℕ)) × AreOfItsFiles bundle.now files × (all.items ≡ filled bundle.now files)) }
    ensures within { IfOk result (λ all. vec_len all ≤ from.now.limit) }
    ensures err { IfErr result (IsFillingFault from.now.limit bundle.now) }
{
    let mut all = Vec::new(alloc);
    let mut rest = bundle;
    while let Some(part) = first_filed(rest) {
        put_filed(rt, alloc, from, &mut all, &part)?;
        rest = part.below;
    }
    put(&mut all, rest, from.limit)?;
    Ok(all)
}

/// All bytes of a bundle's own file, up to the limit.
fn own_bytes<E: Files>(rt: &E, alloc: Global, from: &BundleFile<'_>) -> Result<Vec<u8>, FileFault>
    ensures within { IfOk result (λ bytes. vec_len bytes ≤ from.now.limit) }
    ensures err { IfErr result IsOwnFault }
{
    let Ok(file) = fs::open(rt, from.path) else {
        return Err(FileFault::Input(LoadFault::Read));
    };
    match read_all(&mut CountedStream::new(file), alloc, from.limit) {
        Ok(bytes) => Ok(bytes),
        Err(ReadFault::Read) => Err(FileFault::Input(LoadFault::Read)),
        Err(ReadFault::TooLong) => Err(FileFault::Input(LoadFault::TooLong)),
        Err(ReadFault::Memory) => Err(FileFault::Input(LoadFault::Memory)),
    }
}

/// Reads a bundle from its file, and the files that its headings name, from the top; relative paths of these are seen from its folder.
/// Returns the bytes with the lines of each file in their place. What files hold, and when they fail, no contract can say.
/// Takes O(n) for n bytes, and memory for the bundle, for the bytes that are returned, and for one file more.
pub fn bundle_in<E: Files>(
    rt: &E,
    alloc: Global,
    from: &BundleFile<'_>,
) -> Result<Vec<u8>, FileFault>
    ensures ok { IfOk result (λ bytes. AreFilled from.now.limit bytes.items) }
    ensures err { IfErr result (IsBundleFault from.now.limit) }
{
    let bundle = own_bytes(rt, alloc, from)?;
    if first_filed(&bundle).is_none() {
        return Ok(bundle);
    }
    fill(rt, alloc, from, &bundle)
}
