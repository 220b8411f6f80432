use guard::{Admission, Guard, Reply, Request};
use redo_core::{Cut, Roster};
use replica::Replica;
use std::alloc::{AllocError, Global};
use std::collections::VecDeque;
use volume::{Action, Event, Settings, Volume};

/// A request that was sent and has not arrived.
#[derive(Drop)]
struct Mail {
    engine: usize,
    node: u8,
    request: Request,
}

/// Three nodes, engines of a quorum of two, and what is on its way.
#[derive(Drop)]
pub struct World {
    pub alloc: Global,
    nodes: Vec<Guard>,
    engines: Vec<Volume>,
    mail: VecDeque<Mail>,
}

/// A node of a birth that nothing has reached, or None where memory runs out.
fn fresh_node(alloc: Global, birth: u64) -> Result<Guard, AllocError> {
    match Roster::new(1) {
        Ok(roster) => Ok(Guard::new(Replica::new(alloc, roster, 0)?, birth)),
        Err(_) => Err(AllocError),
    }
}

/// Three fresh nodes of the births 11, 12 and 13, and no engine.
pub fn new_world(alloc: Global) -> Result<World, AllocError> {
    let mut nodes = Vec::new(alloc);
    for birth in 11..14 {
        nodes.push(fresh_node(alloc, birth)?)?;
    }
    Ok(World {
        alloc,
        nodes,
        engines: Vec::new(alloc),
        mail: VecDeque::new(alloc),
    })
}

impl World {
    /// Starts an engine that nothing has happened to.
    pub fn add_engine(&mut self) -> Result<String, AllocError> {
        let settings = match Roster::new(1) {
            Ok(roster) => Settings::new(roster, 3, 2),
            Err(_) => return Err(AllocError),
        };
        match settings {
            Ok(settings) => {
                self.engines.push(Volume::new(self.alloc, settings))?;
                String::from_str(self.alloc, "Done")
            }
            Err(fault) => format!(in self.alloc; "{fault}"),
        }
    }

    /// Lets an event happen to an engine, and returns what follows but for requests, which go into the mail.
    pub fn happen(&mut self, engine: usize, event: Event) -> Result<String, AllocError> {
        let mut text = String::new(self.alloc);
        if let Some(volume) = self.engines.get_mut(engine) {
            let actions = volume.step(event)?;
            self.act(engine, actions, &mut text)?;
        }
        Ok(text)
    }

    fn act(
        &mut self,
        engine: usize,
        actions: Vec<Action>,
        text: &mut String,
    ) -> Result<(), AllocError> {
        for action in actions {
            self.act_once(engine, action, text)?;
        }
        Ok(())
    }

    fn act_once(
        &mut self,
        engine: usize,
        action: Action,
        text: &mut String,
    ) -> Result<(), AllocError> {
        match action {
            Action::Ask { node, request } => self.post(Mail {
                engine,
                node,
                request,
            }),
            Action::Opened {
                epoch,
                commit_point,
                header,
            } => {
                let header = format!(in self.alloc; "{header:?}")?;
                write!(text, "opened {epoch} {commit_point} {header};")
            }
            Action::Created => text.push_str("created;"),
            Action::Committed { commit_point } => write!(text, "committed {commit_point};"),
            Action::Durable { commit_point } => write!(text, "durable {commit_point};"),
            Action::Refused { fault } => write!(text, "{fault};"),
        }
    }

    fn post(&mut self, mail: Mail) -> Result<(), AllocError> {
        self.mail.push_back(mail)?;
        Ok(())
    }

    /// Takes the first letter of an engine to one of the nodes out of the mail.
    fn next_mail(&mut self, engine: usize, nodes: [u8; 3]) -> Option<Mail> {
        let place = self
            .mail
            .iter()
            .position(|mail| mail.engine == engine && nodes.contains(&mail.node))?;
        self.mail.remove(place)
    }

    /// Delivers a letter, and lets the engine hear the reply.
    fn hand_over(&mut self, mail: Mail, text: &mut String) -> Result<(), AllocError> {
        let Some(guard) = self.nodes.get_mut(usize::from(mail.node)) else {
            return Ok(());
        };
        let reply = guard.step(mail.request);
        let node = mail.node;
        let heard = self.happen(mail.engine, Event::Answered { node, reply })?;
        text.push_str(heard.as_str())
    }

    /// Delivers what an engine has sent to these nodes, and what it sends them on their replies.
    pub fn run(&mut self, engine: usize, nodes: [u8; 3]) -> Result<String, AllocError> {
        let mut text = String::new(self.alloc);
        for _ in 0..1000 {
            match self.next_mail(engine, nodes) {
                Some(mail) => self.hand_over(mail, &mut text)?,
                None => break,
            }
        }
        Ok(text)
    }

    /// So many times, delivers the first letter of an engine to each of two nodes.
    pub fn rounds(
        &mut self,
        engine: usize,
        count: u64,
        nodes: [u8; 2],
    ) -> Result<String, AllocError> {
        let mut text = String::new(self.alloc);
        for _ in 0..count {
            for node in nodes {
                let heard = self.deliver(engine, node)?;
                text.push_str(heard.as_str())?;
            }
        }
        Ok(text)
    }

    /// Delivers the first letter of an engine to a node.
    pub fn deliver(&mut self, engine: usize, node: u8) -> Result<String, AllocError> {
        let mut text = String::new(self.alloc);
        if let Some(mail) = self.next_mail(engine, [node; 3]) {
            self.hand_over(mail, &mut text)?;
        }
        Ok(text)
    }

    /// Drops what an engine has sent to a node.
    pub fn lose(&mut self, engine: usize, node: u8) -> Result<String, AllocError> {
        self.mail
            .retain(|mail| mail.engine != engine || mail.node != node);
        String::from_str(self.alloc, "Done")
    }

    /// The node comes back fresh.
    pub fn restart(&mut self, node: u8, birth: u64) -> Result<String, AllocError> {
        let fresh = fresh_node(self.alloc, birth)?;
        if let Some(guard) = self.nodes.get_mut(usize::from(node)) {
            *guard = fresh;
        }
        String::from_str(self.alloc, "Done")
    }

    /// What a node replies to a request that no engine hears the reply to.
    pub fn ask(&mut self, node: u8, request: Request) -> Reply {
        match self.nodes.get_mut(usize::from(node)) {
            Some(guard) => guard.step(request),
            None => Reply::Unguarded,
        }
    }

    /// The admission of a creation comes again at a node.
    pub fn admit_again(
        &mut self,
        node: u8,
        generation: u64,
        birth: u64,
    ) -> Result<String, AllocError> {
        let reply = self.ask(
            node,
            Request::Admit(Admission {
                generation,
                birth,
                epoch: 0,
                complete: 0,
                accepted: None,
            }),
        );
        self.name_of(reply)
    }

    /// The proposal of the truncation 1 0 0 comes again at a node.
    pub fn propose_again(
        &mut self,
        node: u8,
        generation: u64,
        birth: u64,
    ) -> Result<String, AllocError> {
        let Ok(cut) = Cut::new(1, 0, 0) else {
            return Err(AllocError);
        };
        let reply = self.ask(
            node,
            Request::Propose {
                generation,
                birth,
                cut,
            },
        );
        self.name_of(reply)
    }

    fn name_of(&self, reply: Reply) -> Result<String, AllocError> {
        match reply {
            Reply::Stale(generation) => format!(in self.alloc; "stale {generation}"),
            Reply::Fresh(birth) => format!(in self.alloc; "fresh {birth}"),
            Reply::Stranger(birth) => format!(in self.alloc; "stranger {birth}"),
            Reply::Accepted { epoch, .. } => format!(in self.alloc; "accepted {epoch}"),
            Reply::Admitted { generation, .. } => format!(in self.alloc; "admitted {generation}"),
            Reply::Member => String::from_str(self.alloc, "member"),
            Reply::Behind { epoch, complete } => {
                format!(in self.alloc; "behind {epoch} {complete}")
            }
            _ => String::from_str(self.alloc, "another reply"),
        }
    }
}
