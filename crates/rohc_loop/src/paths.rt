//! The paths of a save.

ghost use Rattle.std.specs.Prelude.{◌≡◌, IfSome};
ghost use Rattle.std.specs.String.{string_bytes};
ghost use Rattle.rohc_loop.specs.Paths.{IsFolder, beside};

use std::alloc::Global;

/// The folder of a file.
pub fn folder_of(path: &str) -> &str
    ensures { IsFolder path.now result.now }
{
    match path.rfind('/') {
        Some(0) => "/",
        Some(index) => path.get(..index).unwrap_or("."),
        None => ".",
    }
}

/// The path of the new file beside a file. `None` if there is no memory.
pub fn path_beside(alloc: Global, path: &str) -> Option<String>
    ensures { IfSome result (λ new. string_bytes new ≡ beside path.now) }
{
    let mut new = String::from_str(alloc, path).ok()?;
    new.push_str(".new").ok()?;
    Some(new)
}
