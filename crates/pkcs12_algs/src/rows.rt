//! Alternatives that are known by object identifiers, as rows `Name = OCTETS`: each in one place, for both directions.

/// The octets of an algorithm's row, or what it holds where it is unknown.
macro_rules! parts_by_rows {
    ($algorithm:expr, $($alternative:ident = $octets:ident,)*) => {
        match $algorithm {
            $(Self::$alternative => Ok($octets),)*
            Self::Unknown(raw) => Err(raw),
        }
    };
}

/// The octets of a kind's row.
macro_rules! octets_by_rows {
    ($kind:expr, $($alternative:ident = $octets:ident,)*) => {
        match $kind {
            $(Self::$alternative => $octets,)*
        }
    };
}

/// The alternative whose row has these octets.
macro_rules! alternative_by_rows {
    ($octets:expr, $($alternative:ident = $row:ident,)*) => {
        match $octets {
            $($row => Some(Self::$alternative),)*
            _ => None,
        }
    };
}

pub(crate) use alternative_by_rows;
pub(crate) use octets_by_rows;
pub(crate) use parts_by_rows;
