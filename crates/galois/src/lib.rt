// Theory of the fields: the public definitions of product and inverse modulo a polynomial, and
// the proof, once over the width m and the reducing polynomial f, that they make a field.
// The code of the fields is crate field.
#![tactic(auto)]
