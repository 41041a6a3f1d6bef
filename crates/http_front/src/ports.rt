//! The ports that a host listens on.

mod listener;
mod served_port;

ghost use Rattle.std.specs.Prelude.{◌≡◌, ◌++◌, ◌∷◌, [], IfOk, IfErr, OnOk, length};
ghost use Rattle.std.specs.Arc.{arc_value};
ghost use Rattle.arn_ids.specs.Environments.{owners};
ghost use Rattle.http_routes.specs.Decisions.{IsPortOf};
ghost use Rattle.service_port.specs.declared.port.Port.TheVariants.{Account};
ghost use Rattle.http_front.specs.HostFaults.{IsOfMachine};
ghost use Rattle.http_front.specs.Ports.{ports_of, environment_ports, number_of};
ghost use Rattle.http_front.specs.ServedPorts.{served, all_served, all_served_of, served_environments, served_handled};

use crate::host::at_socket;
use crate::{HostFault, Port};
use account_lock::Identity;
use arn_ids::{Checked, Slot};
pub(crate) use listener::{AcceptedSocket, Listener};
use mio::net::TcpListener;
use mio::{Events, Interest, Poll, Token, Waker};
pub(crate) use served_port::ServedPort;
use service_port::HandledPorts;
use std::alloc::{AllocError, Global};
use std::io;
use std::net::{IpAddr, Ipv4Addr, Net, SocketAddr};
use std::sync::Arc;
use std::time::Duration;

/// The most events that one wait reports.
const MOST_EVENTS: usize = 256;

/// The token of the waker, which is no port's.
const OF_WAKER: Token = Token(usize::MAX);

/// The ports of a host: the account's, one of each environment, and those of handlers. The token of each is its index.
#[derive(Drop)]
pub(crate) struct Ports<S: Identity> {
    pub(crate) poll: Poll,
    pub(crate) events: Events,
    // What ends a wait for connections.
    pub(crate) waker: Arc<Waker>,
    pub(crate) listeners: Vec<Listener<S>>,
}

/// Adds the ports of these environments.
fn push_ports(ports: &mut Vec<u16>, slots: &[Slot]) -> Result<(), AllocError>
    ensures { OnOk result (ports.new.items ≡ ports.old.items ++ ports_of slots.now) }
{
    for slot in slots {
        ports.push(slot.port)?;
    }
    Ok(())
}

/// Returns the ports of the environments, in the order of their numbers.
pub(crate) fn ports_in_order(alloc: Global, config: &Checked) -> Result<Vec<u16>, AllocError>
    ensures { IfOk result (λ ports. ports.items ≡ environment_ports config.now) }
{
    let mut ports = Vec::new(alloc);
    for function in config.functions() {
        push_ports(&mut ports, function.slots.as_slice())?;
    }
    Ok(ports)
}

impl<S: Identity> Ports<S> {
    /// Listens at the number of a port, and adds the listener of the port.
    fn listen(
        &mut self,
        net: &impl Net,
        number: u16,
        config: &Arc<Checked>,
        salt: u64,
        port: Port,
    ) -> Result<(), HostFault>
        requires configured { arc_value config.now ≡ S.config }
        requires salted { salt ≡ S.salt }
        requires port { IsPortOf S.config port }
        requires number { number ≡ number_of (arc_value config.now) port }
        ensures all_served { OnOk result (all_served self.new.listeners.items
            ≡ all_served self.old.listeners.items ++ (served (arc_value config.now) salt port ∷ [])) }
        ensures fault { IfErr result IsOfMachine }
    {
        let listener = self.bind(net, number)?;
        let served = ServedPort::new(port, number, Arc::try_clone(config)?, salt);
        match self.listeners.push(Listener::new(listener, served)) {
            Ok(()) => Ok(()),
            Err(_refused) => Err(HostFault::OutOfMemory),
        }
    }

    /// Listens at a number on 127.0.0.1, for the listener that is added next.
    fn bind(&self, net: &impl Net, number: u16) -> Result<TcpListener, HostFault>
        ensures { IfErr result IsOfMachine }
    {
        let address = SocketAddr::new(IpAddr::V4(Ipv4Addr::new(127, 0, 0, 1)), number);
        let mut listener = TcpListener::bind(net, address).map_err(at_socket)?;
        self.poll
            .registry()
            .register(
                &mut listener,
                Token(self.listeners.len()),
                Interest::READABLE,
            )
            .map_err(at_socket)?;
        Ok(listener)
    }

    /// Listens at every port of a configuration on 127.0.0.1, and at these of handlers: first the
    /// account's, then one for each environment, in the order of their numbers, and then those of
    /// handlers, in the order of their list.
    ///
    /// # Errors
    /// `Network` if a port cannot be listened on, otherwise `OutOfMemory`. No port is then listened
    /// on.
    pub(crate) fn open(
        net: &impl Net,
        alloc: Global,
        config: &Arc<Checked>,
        salt: u64,
        handled: &HandledPorts,
    ) -> Result<Ports<S>, HostFault>
        requires configured { arc_value config.now ≡ S.config }
        requires salted { salt ≡ S.salt }
        ensures all_served { IfOk result (λ ports.
            all_served ports.listeners.items ≡ all_served_of (arc_value config.now) salt handled.now) }
        ensures fault { IfErr result IsOfMachine }
    {
        let mut ports = Ports::new(net, alloc)?;
        ports.listen(net, config.invoke_port(), config, salt, Port::Account)?;
        ports.listen_for_environments(net, alloc, config, salt)?;
        ports.listen_for_handlers(net, config, salt, handled)?;
        Ok(ports)
    }

    /// Makes it without a port.
    fn new(net: &impl Net, alloc: Global) -> Result<Ports<S>, HostFault>
        ensures listeners { IfOk result (λ ports. ports.listeners.items ≡ []) }
        ensures fault { IfErr result IsOfMachine }
    {
        let poll = Poll::new(net).map_err(at_socket)?;
        let waker = Waker::new(poll.registry(), OF_WAKER).map_err(at_socket)?;
        Ok(Ports {
            poll,
            events: Events::with_capacity(alloc, MOST_EVENTS)?,
            waker: Arc::new(alloc, waker).map_err(AllocError::from)?,
            listeners: Vec::new(alloc),
        })
    }

    /// Listens at the port of each environment, in the order of their numbers, after the account's
    /// port.
    #[tactic(auto, using(crate::proofs::PortLemmas::as_many_ports))]
    fn listen_for_environments(
        &mut self,
        net: &impl Net,
        alloc: Global,
        config: &Arc<Checked>,
        salt: u64,
    ) -> Result<(), HostFault>
        requires configured { arc_value config.now ≡ S.config }
        requires salted { salt ≡ S.salt }
        requires account { all_served self.old.listeners.items ≡ served (arc_value config.now) salt Account ∷ [] }
        ensures all_served { OnOk result (all_served self.new.listeners.items
            ≡ served (arc_value config.now) salt Account
            ∷ served_environments (arc_value config.now) salt (length (owners (arc_value config.now)))) }
        ensures fault { IfErr result IsOfMachine }
    {
        let ports = ports_in_order(alloc, config)?;
        for place in 0..config.environments() {
            let number = ports[place as usize];
            self.listen(net, number, config, salt, Port::Environment(place + 1))?;
        }
        Ok(())
    }

    /// Listens at each of these ports of handlers, in their order, after the other ports.
    fn listen_for_handlers(
        &mut self,
        net: &impl Net,
        config: &Arc<Checked>,
        salt: u64,
        handled: &HandledPorts,
    ) -> Result<(), HostFault>
        requires configured { arc_value config.now ≡ S.config }
        requires salted { salt ≡ S.salt }
        ensures all_served { OnOk result (all_served self.new.listeners.items
            ≡ all_served self.old.listeners.items ++ served_handled (arc_value config.now) salt handled.now) }
        ensures fault { IfErr result IsOfMachine }
    {
        for number in handled.numbers() {
            self.listen(net, *number, config, salt, Port::Handled(*number))?;
        }
        Ok(())
    }

    /// Waits until connections wait at a port or the waker is used, for at most `round` if there is a
    /// limit.
    ///
    /// # Errors
    /// `Network` if the ports fail.
    pub(crate) fn wait(&mut self, round: Option<Duration>) -> Result<(), HostFault> {
        if let Err(fault) = self.poll.poll(&mut self.events, round)
            && fault.kind() != io::ErrorKind::Interrupted
        {
            return Err(HostFault::Network);
        }
        self.note_waiting();
        Ok(())
    }

    /// Notes the ports at which connections wait.
    fn note_waiting(&mut self) {
        for event in &self.events {
            if let Some(listener) = self.listeners.get_mut(event.token().0) {
                listener.is_waited_at = true;
            }
        }
    }
}
