//! Laws of the definitions that reading is judged by, proved.
ghost use Rattle.reading.specs.Chain.{ChainsStand};
ghost use Rattle.reading.specs.Copies.{ReadingStands, WritingStands};
ghost use Rattle.reading.specs.Naming.{NamingsStand};
ghost use Rattle.reading.specs.Opened.{ScopesStand};

/// Scopes, chains of arguments and counts of namings are what they are in words; and reading and writing undo each other.
pub fn laws_stand()
    ensures scopes { ScopesStand }
    ensures chains { ChainsStand }
    ensures namings { NamingsStand }
    ensures read { ReadingStands }
    ensures written { WritingStands }
{}
