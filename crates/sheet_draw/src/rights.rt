// Rights by their names: "Rights add up, 0 to 8191".
use std::fmt;
use values::limit::MAX_RIGHTS;
use values::rights::Rights;

// In the order of their numbers.
const NAMES: [(Rights, &str); 13] = [
    (Rights::READ, "READ"),
    (Rights::WRITE, "WRITE"),
    (Rights::CAP_INFO, "CAP_INFO"),
    (Rights::DERIVE_CAP, "DERIVE_CAP"),
    (Rights::DELETE_CAP, "DELETE_CAP"),
    (Rights::RENAME_OBJ, "RENAME_OBJ"),
    (Rights::WITHDRAW, "WITHDRAW"),
    (Rights::DEPOSIT, "DEPOSIT"),
    (Rights::SUSPEND, "SUSPEND"),
    (Rights::RESUME, "RESUME"),
    (Rights::APPLY_LOCK, "APPLY_LOCK"),
    (Rights::SEND, "SEND"),
    (Rights::REVIVE, "REVIVE"),
];

// Each right's name with a space before it.
#[derive(Clone, Copy)]
pub struct Named(pub Rights);

impl fmt::Display for Named {
    fn fmt<W: fmt::Write>(&self, f: &mut fmt::Formatter<W>) -> fmt::Result {
        if u32::from(self.0.0) == MAX_RIGHTS {
            return write!(f, " all rights");
        }
        if self.0.0 == Rights::NONE.0 {
            return write!(f, " no rights");
        }
        for (right, name) in NAMES {
            if self.0.has(right) {
                write!(f, " {name}")?;
            }
        }
        Ok(())
    }
}
