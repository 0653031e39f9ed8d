//! Texts that are cut at a mark, and their blanks.
ghost use Rattle.std.specs.Prelude.{◌≡◌, ◌<◌, length, option_map};
ghost use Rattle.hiera_config.specs.Cuts.{cut_at, after_prefix, before_suffix, trimmed, trimmed_start, trimmed_end};
ghost use Rattle.hiera_config.specs.Cuts.{without_first_blank, without_last_blank};

/// What stands before the first such mark, and what behind it.
pub fn cut_at<'a>(text: &'a str, mark: &str) -> Option<(&'a str, &'a str)>
    requires { 0 < length mark.now }
    ensures { option_map (λ c. (c.0.now, c.1.now)) result ≡ cut_at mark.now text.now }
{
    text.split_once(mark)
}

pub fn after_prefix<'a>(text: &'a str, mark: &str) -> Option<&'a str>
    ensures { option_map (λ t. t.now) result ≡ after_prefix mark.now text.now }
{
    text.strip_prefix(mark)
}

pub fn before_suffix<'a>(text: &'a str, mark: &str) -> Option<&'a str>
    ensures { option_map (λ t. t.now) result ≡ before_suffix mark.now text.now }
{
    text.strip_suffix(mark)
}

/// The text without the spaces, tabs and ends of lines at both ends.
pub fn trimmed(text: &str) -> &str
    ensures { result.now ≡ trimmed text.now }
{
    trimmed_end(trimmed_start(text))
}

fn trimmed_start(text: &str) -> &str
    ensures { result.now ≡ trimmed_start text.now }
{
    let mut rest = text;
    while let Some(shorter) = without_first_blank(rest) {
        rest = shorter;
    }
    rest
}

fn trimmed_end(text: &str) -> &str
    ensures { result.now ≡ trimmed_end text.now }
{
    let mut rest = text;
    while let Some(shorter) = without_last_blank(rest) {
        rest = shorter;
    }
    rest
}

fn without_first_blank(text: &str) -> Option<&str>
    ensures { option_map (λ t. t.now) result ≡ without_first_blank text.now }
{
    if let Some(rest) = after_prefix(text, " ") {
        return Some(rest);
    }
    if let Some(rest) = after_prefix(text, "\t") {
        return Some(rest);
    }
    if let Some(rest) = after_prefix(text, "\r") {
        return Some(rest);
    }
    after_prefix(text, "\n")
}

fn without_last_blank(text: &str) -> Option<&str>
    ensures { option_map (λ t. t.now) result ≡ without_last_blank text.now }
{
    if let Some(rest) = before_suffix(text, " ") {
        return Some(rest);
    }
    if let Some(rest) = before_suffix(text, "\t") {
        return Some(rest);
    }
    if let Some(rest) = before_suffix(text, "\r") {
        return Some(rest);
    }
    before_suffix(text, "\n")
}
