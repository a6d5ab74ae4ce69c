// A call's request and its reply.
ghost use Rattle.export_numbers.specs.Call.{request_length, reply_length, request_of, nothing, row};

use crate::numbers::{Asks, Told};
use call_steps::numbers::{capability_at, name_at, window_at};
use call_steps::request::{Capability, Given, Name, Reply, Request};

impl Asks for Request {
    type Answer = Reply;

    const LENGTH: usize = 22;

    ghost LENGTH = { request_length };

    ghost meant = { request_of };

    #[tactic(auto, unfolding(crate::specs::Call::request_of))]
    fn of_numbers(request: &[u32]) -> Request {
        Request {
            number: request[0],
            caller: name_at(request, 1),
            presented: capability_at(request, 3),
            name: name_at(request, 7),
            size: request[9],
            flag: request[10],
            rights: request[11],
            drawn: [request[12], request[13]],
            range: window_at(request, 14),
            sum: request[16],
            lock: [request[17], request[18]],
            limit: request[19],
            last_day: request[20],
            day: request[21],
        }
    }
}

impl Told for Given {
    const LENGTH: usize = 9;

    ghost LENGTH = { reply_length };

    ghost nothing = { nothing };

    ghost numbers = { row };

    fn nothing() -> Given {
        Given {
            count: 0,
            length: 0,
            capability: Capability {
                name: Name {
                    volume: 0,
                    serial: 0,
                },
                password: [0, 0],
            },
            moneyword: 0,
            sum: 0,
        }
    }

    #[tactic(auto, unfolding(crate::specs::Call::row))]
    fn put_row(self, code: u32, reply: &mut [u32]) {
        let capability = self.capability;
        let [p1, p2] = capability.password;
        reply.copy_from_slice(&[
            code,
            capability.name.volume,
            capability.name.serial,
            p1,
            p2,
            self.length,
            self.moneyword,
            self.sum,
            self.count,
        ]);
    }
}
