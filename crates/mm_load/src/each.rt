//! Files of one kind, each read and parsed before the next.
ghost use Rattle.std.specs.Prelude.{◌≡◌, ◌+◌, ◌≤◌, List, length, map, IfOk};
ghost use Rattle.mm_cli.specs.declared.table.Kind.TheVariants.{Image as image_file, Object as object_file};
ghost use Rattle.mm_load.specs.Kinds.{Value, an_image, an_object};
ghost use Rattle.mm_load.specs.Files.{FilesRead, files_named, reading};

use crate::from_file::FromFile;
use crate::load::load_file;
use crate::status::CommandError;
use mm_image::Image;
use mm_io::Files;
use mm_object::Object;
use std::alloc::Global;

/// Reads and parses files of one kind in their order. The first is the command's file `first`.
fn load_each<T: FromFile, F: Files>(
    alloc: Global,
    files: &mut F,
    names: &[String],
    first: u8,
) -> Result<Vec<T>, CommandError>
    requires few { length names.now ≤ 16 }
    requires early { first ≤ 16 }
    ensures read { (before : List Value) → first ≡ length before + 1
        → FilesRead (reading F.held F.faults F.asked files.old files.new) before (files_named T.of_kind names.now)
        (λ loaded. map T.meaning loaded.items) result }
    ensures count { IfOk result (λ loaded. length loaded.items ≡ length names.now) }
{
    let mut loaded = Vec::new(alloc);
    for at in 0..names.len() {
        let one = load_file::<T, F>(alloc, files, names[at].as_str(), first + at as u8)?;
        loaded.push(one)?;
    }
    Ok(loaded)
}

/// Reads and parses object files in their order. The first is the command's file `first`.
pub fn load_objects<F: Files>(
    alloc: Global,
    files: &mut F,
    names: &[String],
    first: u8,
) -> Result<Vec<Object>, CommandError>
    requires few { length names.now ≤ 16 }
    requires early { first ≤ 16 }
    ensures read { (before : List Value) → first ≡ length before + 1
        → FilesRead (reading F.held F.faults F.asked files.old files.new) before (files_named object_file names.now)
        (λ objects. map an_object objects.items) result }
    ensures count { IfOk result (λ objects. length objects.items ≡ length names.now) }
{
    load_each(alloc, files, names, first)
}

/// Reads and parses image files in their order. The first is the command's file `first`.
pub fn load_images<F: Files>(
    alloc: Global,
    files: &mut F,
    names: &[String],
    first: u8,
) -> Result<Vec<Image>, CommandError>
    requires few { length names.now ≤ 16 }
    requires early { first ≤ 16 }
    ensures read { (before : List Value) → first ≡ length before + 1
        → FilesRead (reading F.held F.faults F.asked files.old files.new) before (files_named image_file names.now)
        (λ images. map an_image images.items) result }
    ensures count { IfOk result (λ images. length images.items ≡ length names.now) }
{
    load_each(alloc, files, names, first)
}
