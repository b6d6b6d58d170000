//! The registry that `@` means.
use std::env::{self, VarError};

/// The path of the registry that is installed with the program: `share/langtag/registry.txt` in the folder above that
/// of the program. None if the program's own path is not known or has no such folder, or memory runs out.
fn installed_path(rt: &HostRuntime) -> Option<String> {
    let program = env::current_exe(rt).ok()?;
    let folder = program.parent()?.parent()?.as_str();
    format!(in rt.alloc(); "{folder}/share/langtag/registry.txt").ok()
}

/// The path of the registry that `@` means: the one that the variable LANGTAG_REGISTRY names, or else that of the
/// installed one. An empty variable names none. None if the variable can't be read, for example since it is not UTF-8,
/// or if `installed_path` gives none.
fn known_path(rt: &HostRuntime) -> Option<String> {
    match env::var(rt, "LANGTAG_REGISTRY") {
        Ok(path) if !path.is_empty() => Some(path),
        Ok(_) | Err(VarError::NotPresent) => installed_path(rt),
        Err(_) => None,
    }
}

/// The path of the registry that `@` means, or `@` itself if that is not known. It is empty if memory runs out.
pub(crate) fn registry_path(rt: &HostRuntime) -> String {
    match known_path(rt) {
        Some(path) => path,
        None => String::from_str(rt.alloc(), "@").unwrap_or(String::new(rt.alloc())),
    }
}
