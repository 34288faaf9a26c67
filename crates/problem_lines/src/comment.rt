ghost use Rattle.std.specs.Prelude.{◌≡◌, ◌==◌, not};
ghost use Rattle.std.specs.List.{prefix_len};
ghost use Rattle.problem_lines.specs.Lines.{content_of};

/// The number of bytes before the first `#`.
fn content_size(line: &[u8]) -> usize
    ensures { result ≡ prefix_len (λ byte. not (byte == 35)) line.now }
{
    line.iter().take_while(|byte| **byte != b'#').count()
}

/// The part of a line before its comment, which begins with the first `#`.
pub fn content(line: &[u8]) -> &[u8]
    ensures { result.now ≡ content_of line.now }
{
    let (before, _) = line.split_at(content_size(line));
    before
}
