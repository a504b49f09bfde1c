// Drives every entry point from a script on standard input and prints one line for each call (docs/REPLAY.md). One ledger and one cabinet go from call to
// call; memory is fixed, so that a script may be of any length.
#![tactic(auto)]

use cabinet::Cabinet;
use cli_printing::Output;
use gate::Ledger;
use replay_gate::Files;
use replay_rows::Batch;
use replay_script::{Call, Room, Stop, prefix, within};

// Where the lines go, and what is carried from call to call.
#[derive(Drop)]
struct Replay {
    out: Output,
    ledger: Ledger,
    cabinet: Cabinet,
}

impl Replay {
    fn new(rt: &HostRuntime) -> Replay {
        Replay {
            out: Output::new(rt),
            ledger: Ledger::fresh(),
            cabinet: Cabinet::fresh(),
        }
    }

    // A call on the ledger, the cabinet or the desk, or a preparation. No other letter is left.
    fn answer_read(&mut self, k: u64, call: Call, files: Files) -> Result<(), Stop> {
        let letter = call.letter;
        let out = &mut self.out;
        if replay_gate::is_ledgers(letter) {
            self.ledger = replay_gate::ledger_call(out, k, self.ledger, letter, call.first, files);
        } else if replay_gate::is_cabinets(letter) {
            self.cabinet = replay_gate::cabinet_call(
                out,
                k,
                self.cabinet,
                letter,
                call.first,
                call.second,
                files,
            );
        } else if letter == b'D' {
            replay_files::desk_call(out, k, files.km0, files.acl);
        } else if letter == b'P' {
            replay_runs::prepare_call(out, k, files.km0);
        } else {
            return Err(Stop);
        }
        Ok(())
    }

    // A call that is no run, its arguments in their room. Those that write do so in the second, a trimming in the third and fourth.
    fn answer_alone(&mut self, k: u64, call: Call, room: &mut Room) -> Result<(), Stop> {
        let letter = call.letter;
        let given = prefix(&room.a, call.a);
        let m = within(&room.b, call.b);
        let n = within(&room.c, call.c);
        let o = within(&room.d, call.d);
        let b = &mut room.b[..];
        let c = &mut room.c[..];
        let d = &mut room.d[..];
        if replay_files::is_buffers(letter) {
            replay_files::buffer_call(
                &mut self.out,
                k,
                letter,
                call.first,
                call.second,
                given,
                &mut b[..m],
            );
            return Ok(());
        }
        if letter == b'M' {
            replay_files::trim_call(&mut self.out, k, given, &b[..m], &mut c[..n], &mut d[..o]);
            return Ok(());
        }
        self.answer_read(
            k,
            call,
            Files {
                km0: given,
                acl: &b[..m],
                req: &c[..n],
                new: &d[..o],
                hints: prefix(&room.e, call.e),
            },
        )
    }

    // A call, its arguments in their room. A run writes in the fifth.
    fn answer(&mut self, k: u64, call: Call, room: &mut Room) -> Result<(), Stop> {
        let slot_run = replay_script::is_slot_run(call.letter);
        if !replay_script::is_run(call.letter) && !slot_run {
            return self.answer_alone(k, call, room);
        }
        let batch = Batch {
            km0: prefix(&room.a, call.a),
            acl: prefix(&room.b, call.b),
            row: prefix(&room.c, call.c),
            requests: prefix(&room.d, call.d),
        };
        let m = within(&room.e, call.e);
        let e = &mut room.e[..];
        let answers = &mut e[..m];
        let out = &mut self.out;
        if slot_run {
            self.cabinet = replay_runs::slot_run_call(
                out,
                k,
                self.cabinet,
                call.letter,
                call.first,
                &room.form,
                batch,
                answers,
            );
        } else {
            self.ledger = replay_runs::run_call(
                out,
                k,
                self.ledger,
                call.letter,
                &room.form,
                batch,
                answers,
            );
        }
        Ok(())
    }

    // Reads the next call, call k, and answers it. Whether there was one.
    fn turn(&mut self, rt: &HostRuntime, k: u64, room: &mut Room) -> Result<bool, Stop> {
        let read = replay_script::read_call(
            rt,
            &mut room.a,
            &mut room.b,
            &mut room.c,
            &mut room.d,
            &mut room.e,
            &mut room.form,
        );
        let Some(call) = read? else {
            return Ok(false);
        };
        self.answer(k, call, room)?;
        Ok(true)
    }
}

// A proved loop has to end, and nothing says that a script does: the calls are counted up to a number that no run reaches.
fn main(rt: HostRuntime) {
    let mut room = Room::new();
    let mut replay = Replay::new(&rt);
    for k in 1..u64::MAX {
        match replay.turn(&rt, k, &mut room) {
            Ok(true) => {}
            Ok(false) => return,
            Err(Stop) => {
                replay.out.print(format_args!("{k} stop\n"));
                return;
            }
        }
    }
}
