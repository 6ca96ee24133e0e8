// Worked runs. A call of these functions does nothing: what they ensure are facts computed on the rules.
ghost use Rattle.protocol.specs.Worked.{PremisesMet, MergesOnReadAlone, WaitsForItsPast, ServesWhatTheReaderKnows};

/// The premises of the promises can be met: by a run that reaches every kind of call.
pub fn premises()
    ensures met { PremisesMet }
{}

/// Where a classic mistake would go wrong: merging on receipt, ending a fetch too early, serving without the reader's column.
pub fn mistakes()
    ensures merging { MergesOnReadAlone }
    ensures ending { WaitsForItsPast }
    ensures serving { ServesWhatTheReaderKnows }
{}
