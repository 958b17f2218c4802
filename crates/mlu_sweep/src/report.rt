//! What a sweep has found.

use crate::lanes::values;
use mlu_ring::Additive;
use multilinear_util::poly::Poly;
use rand_pcg::Pcg32;
use std::alloc::AllocError;
use std::fmt;

/// What the values at hand are made of.
#[derive(Clone, Copy)]
pub enum Shape {
    /// A polynomial of so many variables, and a point of so many coordinates.
    Polynomial {
        variables: usize,
        coordinates: usize,
    },
    /// So many entries.
    Slice {
        entries: usize,
    },
    /// So many packed weights, for each of so many rows of entries.
    Dot {
        weights: usize,
        rows: usize,
    },
    /// So many packed weights, one for each row added to so many packed places.
    Prefix {
        weights: usize,
        places: usize,
    },
    /// So many rows of so many packed values.
    Basis {
        rows: usize,
        values: usize,
    },
    /// So many entries of a first half, so many variables of the second one, and so many places.
    Split {
        rows: usize,
        variables: usize,
        places: usize,
    },
}

/// As a difference says it after "of".
impl fmt::Display for Shape {
    fn fmt<W: fmt::Write>(&self, f: &mut fmt::Formatter<W>) -> fmt::Result {
        match *self {
            Shape::Polynomial {
                variables,
                coordinates,
            } => write!(f, "{variables} variables at {coordinates} coordinates"),
            Shape::Slice { entries } => write!(f, "{entries} entries"),
            Shape::Dot { weights, rows } => {
                write!(f, "{weights} packed weights and {rows} rows")
            }
            Shape::Prefix { weights, places } => {
                write!(f, "{weights} packed weights and {places} packed places")
            }
            Shape::Basis { rows, values } => write!(f, "{rows} rows of {values} packed values"),
            Shape::Split {
                rows,
                variables,
                places,
            } => write!(
                f,
                "{rows} rows of {variables} variables and {places} places"
            ),
        }
    }
}

/// The first answer that differs from the definition.
#[derive(Clone, Copy)]
pub struct Difference {
    call: &'static str,
    form: &'static str,
    shape: Shape,
    place: usize,
}

/// Names the call, what it was made on, and the first place where it differs.
impl fmt::Display for Difference {
    fn fmt<W: fmt::Write>(&self, f: &mut fmt::Formatter<W>) -> fmt::Result {
        let (call, form, shape, place) = (self.call, self.form, self.shape, self.place);
        write!(f, "{call}{form} of {shape} differs at {place}")
    }
}

/// The shape at hand, where the next draw comes from, and the first difference that was met.
#[derive(Drop)]
pub struct Report {
    pub shape: Shape,
    pub rng: Pcg32,
    /// How an operand was made where it is made in more than one way, or nothing.
    pub form: &'static str,
    difference: Option<Difference>,
    is_refused: bool,
}

/// A call that is compared gives its answer as it comes: the report notes where memory was refused, to
/// the call or to the definition.
impl Report {
    /// Nothing compared yet.
    pub fn new() -> Self {
        Report {
            shape: Shape::Slice { entries: 0 },
            rng: Pcg32::new(1, 54),
            form: "",
            difference: None,
            is_refused: false,
        }
    }

    /// The first difference, if there is one.
    ///
    /// # Errors
    /// Where memory was refused.
    pub fn outcome(&self) -> Result<Option<Difference>, AllocError> {
        if self.is_refused {
            return Err(AllocError);
        }
        Ok(self.difference)
    }

    /// Notes where the answer of the call differs, unless a difference was met before.
    pub fn values<R: Additive>(&mut self, call: &'static str, answer: &[R], defined: &[R]) {
        if let Some(place) = first_difference(answer, defined) {
            self.note(call, place);
        }
    }

    /// As [`Report::values`], for one value.
    pub fn value<R: Additive>(&mut self, call: &'static str, answer: R, defined: R) {
        self.agrees(call, answer == defined);
    }

    /// Notes the call where it does not agree, unless a difference was met before.
    pub fn agrees(&mut self, call: &'static str, agrees: bool) {
        if !agrees {
            self.note(call, 0);
        }
    }

    /// As [`Report::value`], for what may be refused.
    pub fn results<R: Additive>(
        &mut self,
        call: &'static str,
        answer: Result<R, AllocError>,
        defined: Result<R, AllocError>,
    ) {
        match (answer, defined) {
            (Ok(answer), Ok(defined)) => self.value(call, answer, defined),
            _ => self.is_refused = true,
        }
    }

    /// As [`Report::values`], for an answer that may be refused.
    pub fn list<R: Additive>(
        &mut self,
        call: &'static str,
        answer: Result<Vec<R>, AllocError>,
        defined: &[R],
    ) {
        match answer {
            Ok(answer) => self.values(call, &answer, defined),
            Err(_) => self.is_refused = true,
        }
    }

    /// As [`Report::list`], with a definition that may be refused too.
    pub fn lists<R: Additive>(
        &mut self,
        call: &'static str,
        answer: Result<Vec<R>, AllocError>,
        defined: Result<Vec<R>, AllocError>,
    ) {
        match defined {
            Ok(defined) => self.list(call, answer, &defined),
            Err(_) => self.is_refused = true,
        }
    }

    /// As [`Report::list`], for the values of a polynomial.
    pub fn table<R: Additive>(
        &mut self,
        call: &'static str,
        answer: Result<Poly<R>, AllocError>,
        defined: &[R],
    ) {
        self.list(call, values(answer), defined);
    }

    /// Notes a difference, unless one was met before.
    fn note(&mut self, call: &'static str, place: usize) {
        if self.difference.is_none() {
            self.difference = Some(Difference {
                call,
                form: self.form,
                shape: self.shape,
                place,
            });
        }
    }
}

/// The first place where the lists differ, or where one of them ends before the other.
fn first_difference<R: Additive>(answer: &[R], defined: &[R]) -> Option<usize> {
    let both = answer.len().min(defined.len());
    for place in 0..both {
        if answer[place] != defined[place] {
            return Some(place);
        }
    }
    if answer.len() == defined.len() {
        None
    } else {
        Some(both)
    }
}
