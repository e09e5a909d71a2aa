//! The words after the program's name.
ghost use Rattle.std.specs.Prelude.{◌≡◌, map, string_bytes};
ghost use Rattle.std.specs.Option.{option_copied};
ghost use Rattle.pir_show.specs.Words.{file_of};

/// The file that the words name, `-` for standard input. There is one word, and none that begins with `-` and goes on.
#[tactic(auto, unfolding(crate::specs::Words::is_name))]
pub fn file_of(words: &[String]) -> Option<&str>
    ensures { option_copied result ≡ file_of (map (λ w. string_bytes w) words.now) }
{
    let [word] = words else {
        return None;
    };
    let name = word.as_str();
    if name.len() > 1 && name.as_bytes()[0] == b'-' {
        return None;
    }
    Some(name)
}
