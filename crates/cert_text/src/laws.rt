//! The laws of certificate texts.
ghost use Rattle.cert_text.specs.Answers.{TextsAreApart, WholesAreRead};

/// No two certificates have one text, and no text is a proper prefix of another.
pub fn texts_are_apart()
    ensures { TextsAreApart }
{}

/// The text of a certificate has no fault: a reader answers that certificate, or that there is no memory.
pub fn wholes_are_read()
    ensures { WholesAreRead }
{}
