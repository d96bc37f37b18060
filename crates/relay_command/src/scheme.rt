//! The encodations by name.

ghost use Rattle.std.specs.Prelude.{◌≡◌, ◌≢◌, MatchOption};
ghost use Rattle.dm_encodation.specs.declared.scheme.Scheme.{Scheme};
ghost use Rattle.relay_command.specs.Schemes.{scheme_name};

use dm_encodation::Scheme;

/// The encodation of a name, if one has it.
pub fn scheme_of(name: &str) -> Option<Scheme>
    ensures { MatchOption result
        ((scheme : Scheme) → name.now ≢ scheme_name scheme)
        (λ scheme. name.now ≡ scheme_name scheme) }
{
    match name {
        "ascii" => Some(Scheme::Ascii),
        "c40" => Some(Scheme::C40),
        "text" => Some(Scheme::Text),
        "base256" => Some(Scheme::Base256),
        _ => None,
    }
}
