// Rights add up, 0 to 8191.
ghost use Rattle.std.specs.Prelude.{◌≡◌};
ghost use Rattle.rules.specs.Rights.{is_right, has, both, asked, op};

use crate::number::by_call;

#[derive(Clone, Copy, Debug, PartialEq, Eq)]
pub struct Rights(pub u16);

impl Rights {
    pub const NONE: Rights = Rights(0);

    pub const READ: Rights = Rights(1);

    pub const WRITE: Rights = Rights(2);

    pub const CAP_INFO: Rights = Rights(4);

    pub const DERIVE_CAP: Rights = Rights(8);

    pub const DELETE_CAP: Rights = Rights(16);

    pub const RENAME_OBJ: Rights = Rights(32);

    pub const WITHDRAW: Rights = Rights(64);

    pub const DEPOSIT: Rights = Rights(128);

    pub const SUSPEND: Rights = Rights(256);

    pub const RESUME: Rights = Rights(512);

    pub const APPLY_LOCK: Rights = Rights(1024);

    pub const SEND: Rights = Rights(2048);

    pub const REVIVE: Rights = Rights(4096);

    // The number is one of the thirteen rights.
    pub fn is_right(number: u32) -> bool
        ensures { result ≡ is_right number }
    {
        THIRTEEN.contains(&number)
    }

    // These rights hold the right.
    pub fn has(self, right: Rights) -> bool
        ensures { result ≡ has self.0 right.0 }
    {
        (self.0 & right.0) == right.0
    }

    // The rights in both sets.
    pub fn both(self, other: Rights) -> Rights
        ensures { result.0 ≡ both self.0 other.0 }
    {
        Rights(self.0 & other.0)
    }

    // The right that the call with this number asks of the capability presented; none where none is presented.
    pub fn asked(number: u32) -> Rights
        ensures { result.0 ≡ asked (op number) }
    {
        by_call(&ASKED, number, Rights::NONE)
    }
}

const THIRTEEN: [u32; 13] = [
    Rights::READ.0 as u32,
    Rights::WRITE.0 as u32,
    Rights::CAP_INFO.0 as u32,
    Rights::DERIVE_CAP.0 as u32,
    Rights::DELETE_CAP.0 as u32,
    Rights::RENAME_OBJ.0 as u32,
    Rights::WITHDRAW.0 as u32,
    Rights::DEPOSIT.0 as u32,
    Rights::SUSPEND.0 as u32,
    Rights::RESUME.0 as u32,
    Rights::APPLY_LOCK.0 as u32,
    Rights::SEND.0 as u32,
    Rights::REVIVE.0 as u32,
];

// In call order, as the fees.
const ASKED: [Rights; 16] = [
    Rights::NONE,
    Rights::READ,
    Rights::WRITE,
    Rights::CAP_INFO,
    Rights::DERIVE_CAP,
    Rights::DELETE_CAP,
    Rights::RENAME_OBJ,
    Rights::WITHDRAW,
    Rights::DEPOSIT,
    Rights::SUSPEND,
    Rights::RESUME,
    Rights::APPLY_LOCK,
    Rights::SEND,
    Rights::NONE,
    Rights::NONE,
    Rights::REVIVE,
];
