// Which small methods are built.
ghost use Rattle.agree_body_forms.specs.Rows.{WorkedForms};

/// The rows on small methods hold.
pub fn worked_forms()
    ensures { WorkedForms }
{}
