//! The command line, read into what it asks for.

ghost use Rattle.std.specs.Prelude.{◌≡◌, map};
ghost use Rattle.std.specs.String.{string_bytes};
ghost use Rattle.std.specs.Option.{option_copied};
ghost use Rattle.zr_top.specs.Words.{file_of};

/// The job file of a defined command: the words are `once` and one file name.
pub fn once_file(words: &[String]) -> Option<&str>
    ensures { option_copied result ≡ file_of (map string_bytes words.now) }
{
    let [command, file] = words else {
        return None;
    };
    if command.as_str() == "once" {
        Some(file.as_str())
    } else {
        None
    }
}
