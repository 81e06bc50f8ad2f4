ghost use Rattle.records.specs.Layout.{IsOneRecord};

/// Two records with one spelling are equal, their trees by what they stand for. It does nothing.
pub fn bytes_spell_one_record()
    ensures { IsOneRecord }
{}
