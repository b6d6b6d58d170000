//! The subcommands of the program.
ghost use Rattle.std.specs.Prelude.{◌≡◌, MatchOption};
ghost use Rattle.lt_words.specs.CommandLine.{name_of};
ghost use Rattle.lt_words.specs.declared.subcommands.Subcommand.{Subcommand};

/// What the program is asked for, by the word after its name.
#[derive(Clone, Copy)]
pub(crate) enum Subcommand {
    Classify,
    Check,
    Canon,
    Codes,
    Tsv,
    Csv,
    Match,
    Extlang,
    Equal,
    Explain,
    Verify,
    Upgrade,
    Show,
    Json,
}

/// The subcommand of this name, or None if none has it.
pub(crate) fn subcommand_named(name: &str) -> Option<Subcommand>
    ensures { MatchOption result ((s : Subcommand) → name_of s ≡ name.now → ⊥) (λ s. name_of s ≡ name.now) }
{
    match name {
        "classify" => Some(Subcommand::Classify),
        "check" => Some(Subcommand::Check),
        "canon" => Some(Subcommand::Canon),
        "codes" => Some(Subcommand::Codes),
        "tsv" => Some(Subcommand::Tsv),
        "csv" => Some(Subcommand::Csv),
        "match" => Some(Subcommand::Match),
        "extlang" => Some(Subcommand::Extlang),
        "equal" => Some(Subcommand::Equal),
        "explain" => Some(Subcommand::Explain),
        "verify" => Some(Subcommand::Verify),
        "upgrade" => Some(Subcommand::Upgrade),
        "show" => Some(Subcommand::Show),
        "json" => Some(Subcommand::Json),
        _ => None,
    }
}
