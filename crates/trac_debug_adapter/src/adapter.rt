//! The adapter: what it knows, and what it responds to each request.

use crate::breakpoints::{Breakpoints, watchable};
use crate::debuggee::{Debuggee, Launch};
use crate::launching::{launch_of, launched};
use crate::messages::{Request, number_at, text_at};
use crate::moving::{Move, move_of};
use crate::outbox::Outbox;
use crate::programs::Programs;
use crate::progress::Progress;
use crate::running::{Run, Way};
use crate::stopping::{Halt, THREAD, tell_stop};
use crate::variables::scopes;
use serde_json::{Value, json};
use std::alloc::{AllocError, Allocator, Global};

// What is said where nothing can be changed.
const NO_CHANGE: &str =
    "a walk shows what the program does: nothing of it can be set; restart takes the program as it is now";

/// What becomes of a message.
#[derive(Clone, Copy, Debug, PartialEq, Eq)]
pub enum Turn {
    /// The next message may come.
    GoesOn,
    /// A program runs: before that, `work` goes on with it.
    Works,
    /// The editor asked it to end.
    Ends,
}

/// A debug adapter.
#[derive(Drop)]
pub struct Adapter<'p, P: Programs<A>, A: Allocator + Copy> {
    alloc: A,
    global: Global,
    programs: &'p P,
    // whether `initialize` came, and `configurationDone`
    is_begun: bool,
    is_configured: bool,
    // the numbers of the first line and the first column
    firsts: (u64, u64),
    breakpoints: Breakpoints<A>,
    progress: Progress,
    debuggee: Option<Debuggee<A>>,
    // how the program runs, if it does
    run: Option<Run<A>>,
}

impl<'p, P: Programs<A>, A: Allocator + Copy> Adapter<'p, P, A> {
    /// An adapter for these programs. It takes no memory.
    pub fn new(alloc: A, global: Global, programs: &'p P) -> Self {
        Adapter {
            alloc,
            global,
            programs,
            is_begun: false,
            is_configured: false,
            firsts: (1, 1),
            breakpoints: Breakpoints::new(alloc, global),
            progress: Progress::new(global),
            debuggee: None,
            run: None,
        }
    }

    /// Does what a message asks for, and puts what is to be sent for it at the end of the outbox. The error is that
    /// memory was refused, here and below.
    pub fn take(&mut self, message: &[u8], outbox: &mut Outbox) -> Result<Turn, AllocError> {
        match Value::from_slice(self.global, message) {
            Ok(message) => self.take_value(&message, outbox),
            Err(error) if error.is_memory() => Err(AllocError),
            Err(_) => refuse_all(outbox, "this is no JSON"),
        }
    }

    // The same of a value. A response asks for nothing, nor does an event.
    fn take_value(&mut self, message: &Value, outbox: &mut Outbox) -> Result<Turn, AllocError> {
        let null = Value::Null;
        match text_at(message, "/type") {
            Some(kind) if kind == "response" || kind == "event" => return Ok(Turn::GoesOn),
            _ => {}
        }
        let (Some(command), Some(seq)) = (text_at(message, "/command"), number_at(message, "/seq"))
        else {
            return refuse_all(outbox, "this is no request");
        };
        let request = Request {
            seq,
            command,
            arguments: message.get("arguments").unwrap_or(&null),
        };
        if command == "disconnect" {
            outbox.respond(request, json!(in self.global; {})?)?;
            return Ok(Turn::Ends);
        }
        self.answer(request, outbox)?;
        self.work(outbox)
    }

    /// Goes on with a program that runs by a piece, and tells the editor, if it stands then, why, and else how far it
    /// is.
    pub fn work(&mut self, outbox: &mut Outbox) -> Result<Turn, AllocError> {
        let Some(mut run) = self.run.take() else {
            return Ok(Turn::GoesOn);
        };
        let Some(mut debuggee) = self.debuggee.take() else {
            return Ok(Turn::GoesOn);
        };
        let halt = debuggee.run_on(&mut run, &mut self.breakpoints)?;
        let turn = match halt {
            Some(halt) => {
                self.progress.end(outbox)?;
                self.stop(&mut debuggee, halt, outbox)?;
                Turn::GoesOn
            }
            None => {
                self.progress.tell(run.way, debuggee.work(&run), outbox)?;
                self.run = Some(run);
                Turn::Works
            }
        };
        self.debuggee = Some(debuggee);
        Ok(turn)
    }

    // Responds to a request.
    fn answer(&mut self, request: Request<'_>, outbox: &mut Outbox) -> Result<(), AllocError> {
        match request.command.as_bytes() {
            b"initialize" => self.begin(request, outbox),
            _ if !self.is_begun => outbox.refuse(request, "initialize has to come first"),
            b"launch" => self.launch(request, outbox),
            b"restart" => self.restart(request, outbox),
            b"configurationDone" => self.configured(request, outbox),
            b"terminate" => self.terminate(request, outbox),
            b"threads" => {
                let body = json!(in self.global; {
                    "threads": [{"id": THREAD, "name": "the program"}]
                })?;
                outbox.respond(request, body)
            }
            b"setVariable" | b"setExpression" => outbox.refuse(request, NO_CHANGE),
            _ => self.set(request, outbox),
        }
    }

    // Begins: says what the adapter can do.
    fn begin(&mut self, request: Request<'_>, outbox: &mut Outbox) -> Result<(), AllocError> {
        self.is_begun = true;
        self.firsts = (
            u64::from(request.flag("/linesStartAt1", true)),
            u64::from(request.flag("/columnsStartAt1", true)),
        );
        self.progress.is_wanted = request.flag("/supportsProgressReporting", false);
        let body = json!(in self.global; {
            "supportsConfigurationDoneRequest": true,
            "supportsFunctionBreakpoints": true,
            "supportsDataBreakpoints": true,
            "supportsConditionalBreakpoints": true,
            "supportsHitConditionalBreakpoints": true,
            "supportsStepBack": true,
            "supportsSteppingGranularity": true,
            "supportsRestartRequest": true,
            "supportsTerminateRequest": true,
            "supportsEvaluateForHovers": true,
            "supportsDelayedStackTraceLoading": true,
            "exceptionBreakpointFilters": [
                {"filter": "doubts", "label": "What is seldom meant"},
                {"filter": "limit", "label": "A limit is passed"}
            ]
        })?;
        outbox.respond(request, body)?;
        outbox.tell("initialized", json!(in self.global; {})?)
    }

    // Launches a program.
    fn launch(&mut self, request: Request<'_>, outbox: &mut Outbox) -> Result<(), AllocError> {
        if self.debuggee.is_some() {
            return outbox.refuse(request, "a program is launched already");
        }
        self.start(request, request.arguments, outbox)
    }

    // Launches the program again, or another one if the request says which.
    fn restart(&mut self, request: Request<'_>, outbox: &mut Outbox) -> Result<(), AllocError> {
        if let Some(arguments) = request.arguments.get("arguments") {
            return self.start(request, arguments, outbox);
        }
        let Some(debuggee) = self.debuggee.take() else {
            return outbox.refuse(request, "no program is launched");
        };
        self.start_as(request, debuggee.into_launch(), outbox)
    }

    // Launches the program that these arguments ask for.
    fn start(
        &mut self,
        request: Request<'_>,
        arguments: &Value,
        outbox: &mut Outbox,
    ) -> Result<(), AllocError> {
        match launch_of(self.global, arguments)? {
            Ok(launch) => self.start_as(request, launch, outbox),
            Err(why) => outbox.refuse(request, why),
        }
    }

    // The same of a launch. If there is no program, there is none any longer.
    fn start_as(
        &mut self,
        request: Request<'_>,
        launch: Launch,
        outbox: &mut Outbox,
    ) -> Result<(), AllocError> {
        self.debuggee = None;
        match launched(self.alloc, self.global, self.programs, launch)? {
            Ok(debuggee) => {
                self.debuggee = Some(debuggee);
                self.breakpoints.forget_hits();
                outbox.respond(request, json!(in self.global; {})?)?;
                self.enter(outbox)
            }
            Err(why) => outbox.refuse(request, why.as_str()),
        }
    }

    // All breakpoints are set.
    fn configured(&mut self, request: Request<'_>, outbox: &mut Outbox) -> Result<(), AllocError> {
        self.is_configured = true;
        outbox.respond(request, json!(in self.global; {})?)?;
        self.enter(outbox)
    }

    // Begins to run the program, if it is launched and all breakpoints are set; if it is to stop before its first step,
    // says so.
    fn enter(&mut self, outbox: &mut Outbox) -> Result<(), AllocError> {
        if !self.is_configured {
            return Ok(());
        }
        let Some(mut debuggee) = self.debuggee.take() else {
            return Ok(());
        };
        if debuggee.launch.stops_on_entry {
            self.stop(&mut debuggee, Halt::Entry, outbox)?;
        } else {
            self.run = Some(debuggee.run(Way::On, &self.breakpoints)?);
        }
        self.debuggee = Some(debuggee);
        Ok(())
    }

    // Ends the program.
    fn terminate(&mut self, request: Request<'_>, outbox: &mut Outbox) -> Result<(), AllocError> {
        self.debuggee = None;
        outbox.respond(request, json!(in self.global; {})?)?;
        outbox.tell("terminated", json!(in self.global; {})?)
    }

    // Tells what the program printed, and why it stands.
    fn stop(
        &self,
        debuggee: &mut Debuggee<A>,
        halt: Halt,
        outbox: &mut Outbox,
    ) -> Result<(), AllocError> {
        debuggee.tell_output(self.global, self.firsts, outbox)?;
        tell_stop(self.global, debuggee, halt, self.breakpoints.limit, outbox)
    }

    // Responds to a request that sets breakpoints.
    fn set(&mut self, request: Request<'_>, outbox: &mut Outbox) -> Result<(), AllocError> {
        let body = match request.command.as_bytes() {
            b"setBreakpoints" => self.breakpoints.set_lines(request, self.firsts.0)?,
            b"setFunctionBreakpoints" => self.breakpoints.set_calls(request)?,
            b"setDataBreakpoints" => self.breakpoints.set_watches(request)?,
            b"setExceptionBreakpoints" => self.breakpoints.set_exceptions(request)?,
            b"dataBreakpointInfo" => {
                watchable(self.global, request.text("/name").unwrap_or(""))?
            }
            _ => return self.show(request, outbox),
        };
        outbox.respond(request, body)
    }

    // Responds to a request about a program that is launched.
    fn show(&mut self, request: Request<'_>, outbox: &mut Outbox) -> Result<(), AllocError> {
        let Some(mut debuggee) = self.debuggee.take() else {
            return outbox.refuse(
                request,
                "no program is launched, or there is no such request",
            );
        };
        let shown = self.show_of(&mut debuggee, request, outbox);
        self.debuggee = Some(debuggee);
        shown
    }

    // The same of this program.
    fn show_of(
        &mut self,
        debuggee: &mut Debuggee<A>,
        request: Request<'_>,
        outbox: &mut Outbox,
    ) -> Result<(), AllocError> {
        let body = match request.command.as_bytes() {
            b"stackTrace" => debuggee.stack(self.global, request, self.firsts)?,
            b"scopes" => scopes(self.global, request.number("/frameId").unwrap_or(0))?,
            b"variables" => debuggee.variables(self.global, request)?,
            b"evaluate" => return self.evaluate(debuggee, request, outbox),
            _ => return match move_of(request) {
                Some(asked) => self.go(debuggee, request, asked, outbox),
                None => outbox.refuse(request, "there is no such request"),
            },
        };
        outbox.respond(request, body)
    }

    // Moves this program so, and says where it stands then; or begins to run it.
    fn go(
        &mut self,
        debuggee: &mut Debuggee<A>,
        request: Request<'_>,
        asked: Move,
        outbox: &mut Outbox,
    ) -> Result<(), AllocError> {
        outbox.respond(
            request,
            json!(in self.global; {"allThreadsContinued": true})?,
        )?;
        if let Move::Run(way) = asked {
            self.run = Some(debuggee.run(way, &self.breakpoints)?);
            return Ok(());
        }
        match debuggee.go(asked) {
            Some(halt) => self.stop(debuggee, halt, outbox),
            None => Ok(()),
        }
    }

    // Responds to what a person asks for at the console, or to one who points at a name. The program is elsewhere then
    // if the console went there.
    fn evaluate(
        &self,
        debuggee: &mut Debuggee<A>,
        request: Request<'_>,
        outbox: &mut Outbox,
    ) -> Result<(), AllocError> {
        if request.text("/context") != Some("repl") {
            return match debuggee.form_named(self.global, request)? {
                Some(body) => outbox.respond(request, body),
                None => outbox.refuse(request, "there is no form of this name"),
            };
        }
        let step = debuggee.walker.step();
        let body = debuggee.obey(self.global, request)?;
        outbox.respond(request, body)?;
        if debuggee.walker.step() == step {
            return Ok(());
        }
        self.stop(debuggee, Halt::Moved, outbox)
    }
}

/// Refuses what is no request.
pub(crate) fn refuse_all(outbox: &mut Outbox, why: &str) -> Result<Turn, AllocError> {
    let request = Request {
        seq: 0,
        command: "",
        arguments: &Value::Null,
    };
    outbox.refuse(request, why)?;
    Ok(Turn::GoesOn)
}
