#![tactic(auto)]
// The twelve rows that 01 works at the edges, as one table with one theorem over the definitions that the engine's
// contracts cite: specs/Edges.antt has the table, proofs/Table.antt the theorem. There is no code here.
