// A term of a polynomial in y: a coefficient of the field, and the power of y that it stands at.
#[derive(Clone, Copy)]
pub struct Term {
    pub power: usize,
    pub coefficient: u16,
}

// The numbers of a parameter set: the field's width m and reducing polynomial f, the degree t of
// the Goppa polynomial, the length n of the support, and the terms below y^t of F(y), the
// polynomial that the maker reduces by. An unused term has the coefficient 0. A row of the table is of
// this type and not a ParameterSet: the check of a table of those did not end within five minutes.
#[derive(Clone, Copy)]
pub struct Numbers {
    pub m: u32,
    pub f: u16,
    pub t: usize,
    pub n: usize,
    pub terms: [Term; 4],
}
