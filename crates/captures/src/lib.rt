#![tactic(auto)]
// Captures and traces, there and back: what is proved of importing and exporting together. There is no code here.
