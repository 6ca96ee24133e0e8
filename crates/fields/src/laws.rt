// That reading a field and putting one are inverse to each other, over any width and any offset.
ghost use Rattle.fields.specs.Fields.{ReadsWhatWasPut, PutsWhatWasRead, KeepsOthers, ReadsTheRowPut, PutsTheRowRead};

/// A call does nothing: what it ensures are facts about the definitions that the contracts of this crate cite.
pub fn inverse()
    ensures read_put { ReadsWhatWasPut }
    ensures put_read { PutsWhatWasRead }
    ensures others { KeepsOthers }
    ensures row_put { ReadsTheRowPut }
    ensures row_read { PutsTheRowRead }
{}
