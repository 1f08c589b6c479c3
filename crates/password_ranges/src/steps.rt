//! Steps by their names alone.

/// The array of some steps, one after another.
macro_rules! steps {
    ($($step:ident $(($of:expr))?)*) => {
        [$(Step::$step $(($of))?),*]
    };
}

pub(crate) use steps;
