// The laws of the texts of lines.
ghost use Rattle.wire.specs.Texts.{ShortTexts, FedTexts, OneText};

// Its contract says that every text fits the least buffer, ends with its one line feed, and tells its line from others.
pub fn line_laws()
    ensures short { ShortTexts }
    ensures feed { FedTexts }
    ensures apart { OneText }
{}
