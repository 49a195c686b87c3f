// Names of files and folders.
ghost use Rattle.std.specs.Prelude.{◌≡◌, ◌==◌, not};
ghost use Rattle.std.specs.List.{list_all};
ghost use Rattle.sj_outside.specs.Contents.{is_name};

/// Whether these bytes are a name: nonempty, and without `/`.
pub fn is_name(bytes: &[u8]) -> bool
    ensures { result ≡ is_name bytes.now }
{
    !bytes.is_empty() && has_no_slash(bytes)
}

fn has_no_slash(bytes: &[u8]) -> bool
    ensures { result ≡ list_all (λ b. not (b == 47)) bytes.now }
{
    bytes.iter().all(|b| *b != b'/')
}
