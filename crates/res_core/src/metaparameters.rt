//! The attributes that any resource takes.
ghost use Rattle.std.specs.Prelude.{◌≡◌, map};
ghost use Rattle.pp_values.specs.Rising.{has_text};
ghost use Rattle.res_core.specs.Metaparameters.{may_relate as begins_so, is_relation_name, is_metaparameter};

use pp_values::Text;

const METAPARAMETERS: [&str; 7] = [
    "before",
    "require",
    "notify",
    "subscribe",
    "tag",
    "noop",
    "loglevel",
];

const RELATIONS: [&str; 4] = ["before", "require", "notify", "subscribe"];

/// Whether a resource of any kind takes an attribute of this name.
#[tactic(auto, unfolding(crate::specs::Metaparameters::is_metaparameter))]
pub fn is_metaparameter(name: &Text) -> bool
    ensures { result ≡ is_metaparameter name.now }
{
    is_among(name, &METAPARAMETERS)
}

/// Whether the metaparameter relates the resource to those that its value names.
#[tactic(auto, using(crate::proofs::RelationNames::begins_otherwise), unfolding(crate::specs::Metaparameters::is_relation_name))]
pub fn is_relation_name(name: &Text) -> bool
    ensures { result ≡ is_relation_name name.now }
{
    may_relate(name.as_str()) && is_among(name, &RELATIONS)
}

/// Whether a name begins as one of those does, so that most names are compared with none.
fn may_relate(name: &str) -> bool
    ensures { result ≡ begins_so name.now }
{
    match name.as_bytes() {
        [first, ..] => *first == b'b' || *first == b'r' || *first == b'n' || *first == b's',
        [] => false,
    }
}

/// Whether the name is one of these, letter by letter.
pub fn is_among(name: &Text, mut names: &[&str]) -> bool
    ensures { result ≡ has_text (map (λ n. n.now) names.entry.now) name.now }
{
    while let [known, rest @ ..] = names {
        if name.is(known) {
            return true;
        }
        names = rest;
    }
    false
}
