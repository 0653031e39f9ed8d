//! Texts that are cut.
ghost use Rattle.std.specs.Prelude.{◌≡◌, option_map};
ghost use Rattle.hiera_config.specs.Cuts.{after_prefix, before_suffix};
ghost use Rattle.journal_reading.specs.EntryReading.{cut_last};

/// What stands behind the mark that the text begins with.
pub fn after_prefix<'a>(text: &'a str, mark: &str) -> Option<&'a str>
    ensures { option_map (λ t. t.now) result ≡ after_prefix mark.now text.now }
{
    text.strip_prefix(mark)
}

/// What stands before the mark that the text ends with.
pub fn before_suffix<'a>(text: &'a str, mark: &str) -> Option<&'a str>
    ensures { option_map (λ t. t.now) result ≡ before_suffix mark.now text.now }
{
    text.strip_suffix(mark)
}

/// What stands before the last colon, and behind it.
pub fn cut_last(text: &str) -> Option<(&str, &str)>
    ensures { option_map (λ p. (p.0.now, p.1.now)) result ≡ cut_last 58 text.now }
{
    text.rsplit_once(':')
}
